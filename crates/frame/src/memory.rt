use crate::leg::Leg;
use crate::visit::Visit;
use reserved::Reserved;

// The most legs of a frame.
pub const LEGS: usize = 2048;
// The most hops at all devices together: each hop is at two.
pub(crate) const VISITS: usize = 4096;
// A place for each device, and one past the last.
pub(crate) const STARTS: usize = 257;

// Memory for one frame: 2,048 legs, and for each device the hops at it.
// `visits` is for the hops at device 0, 1 and so on, each in order of the ends of lifetimes; `starts` for where each device's
// begin. One list with the places where its parts begin, and no list for each device: those would allocate as they grow.
#[derive(Drop)]
pub struct FrameMemory {
    pub legs: Reserved<Leg, LEGS>,
    pub visits: Reserved<Visit, VISITS>,
    pub starts: Reserved<u16, STARTS>,
}
