use crate::frame::Frame;

// A slot and, for each leg of a frame, the number of its hops that are done: what a question about the frame is asked of,
// whether it is a state of the frame or not.
#[derive(Clone, Copy)]
pub struct Moment<'a> {
    pub frame: &'a Frame,
    pub slot: u16,
    pub progress: &'a [u8],
}
