ghost use Rattle.std.specs.Prelude.{◌≡◌, ◌+◌, ◌≤◌, length};
ghost use Rattle.frame.specs.Legs.{hop_total};
ghost use Rattle.frame.specs.Frames.{frame_spec};
ghost use Rattle.walk.specs.Walks.{stand, start, IsMomentOf};

use crate::stack::Stack;
use crate::walking::Walk;
use frame::{Frame, Moment, Placement};

impl<'a> Walk<'a> {
    // A walk at its start, in memory that is long enough.
    pub(crate) fn new(
        frame: &'a Frame,
        trail: &'a mut [Placement],
        marks: &'a mut [u16],
        progress: &'a mut [u8],
    ) -> Walk<'a>
        requires trail { hop_total (frame_spec frame.now).legs ≤ length trail.old }
        requires marks { (frame_spec frame.now).slots + 1 ≤ length marks.old }
        requires progress { length progress.old ≡ length (frame_spec frame.now).legs }
        ensures { stand result ≡ start (frame_spec frame.entry.now) }
    {
        progress.fill(0);
        Walk {
            frame,
            trail: Stack::new(trail),
            marks: Stack::new(marks),
            progress,
        }
    }

    // Its state in a slot.
    pub(crate) fn moment(&self, slot: u16) -> Moment<'_>
        ensures { IsMomentOf (stand self.now) slot result }
    {
        Moment {
            frame: self.frame,
            slot,
            progress: self.progress,
        }
    }
}
