ghost use Rattle.std.specs.Prelude.{◌≡◌, ◌<◌};
ghost use Rattle.frame.specs.Frames.{frame_spec, size_of};
ghost use Rattle.walk.specs.Filling.{placed_at, meets, apart};

use frame::{Frame, Placement};

// The hop of a leg that comes after `done` others, in a cell.
pub(crate) fn placement(frame: &Frame, slot: u16, offset: u8, leg: usize, done: u8) -> Placement
    requires { done < size_of (frame_spec frame.now) leg }
    ensures { result ≡ placed_at (frame_spec frame.now) slot offset leg done }
{
    let leg = &frame.legs()[leg];
    let hop = leg.hops()[done as usize];
    Placement {
        slot,
        offset,
        sender: hop.sender,
        receiver: hop.receiver,
        flow: leg.flow,
        route: leg.route,
        hop: done + 1,
    }
}

// Whether two placements share a device. A placement is one cell as it is handed out, with no hop in it to ask.
fn share_device(one: &Placement, other: &Placement) -> bool
    ensures { result ≡ meets one.now other.now }
{
    (one.sender == other.sender || one.sender == other.receiver)
        || (one.receiver == other.sender || one.receiver == other.receiver)
}

// Whether a placement shares no device with any of the others.
pub(crate) fn is_apart(new: &Placement, others: &[Placement]) -> bool
    ensures { result ≡ apart new.now others.now }
{
    others.iter().all(|other| !share_device(new, other))
}
