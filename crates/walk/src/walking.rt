ghost use Rattle.std.specs.Prelude.{◌≡◌, ◌+◌, ◌≤◌, length};
ghost use Rattle.frame.specs.Legs.{hop_total};
ghost use Rattle.frame.specs.Frames.{frame_spec, leg_count};
ghost use Rattle.walk.specs.Stacks.{room_of};

mod views;

use crate::stack::Stack;
use frame::{Frame, Placement};

// A walk under way, in lent memory: the placements so far, where each slot begins in them, and for each leg the number of
// its hops that are done. There is room for all hops, and for a mark at each slot and one more.
#[derive(Drop)]
pub(crate) struct Walk<'a> {
    pub(crate) frame: &'a Frame,
    pub(crate) trail: Stack<'a, Placement>,
    pub(crate) marks: Stack<'a, u16>,
    pub(crate) progress: &'a mut [u8],
    ghost room: { hop_total (frame_spec frame.now).legs ≤ room_of trail },
    ghost slots: { (frame_spec frame.now).slots + 1 ≤ room_of marks },
    ghost sized: { length progress.now ≡ leg_count (frame_spec frame.now) },
}
