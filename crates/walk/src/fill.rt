use crate::cell::{is_apart, placement};
use crate::ranked::Ranked;
use crate::walking::Walk;

impl Walk<'_> {
    ghost use Rattle.std.specs.Prelude.{◌≡◌, ◌+◌, ◌-◌, ◌<◌, ◌≤◌, [], length};
    ghost use Rattle.frame.specs.Legs.{hop_total};
    ghost use Rattle.frame.specs.Frames.{size_of};
    ghost use Rattle.frame.specs.States.{done_of};
    ghost use Rattle.theory.specs.Greedy.{greedy};
    ghost use Rattle.walk.specs.Filling.{legs_of, Ready};
    ghost use Rattle.walk.specs.Walks.{stand, joined, with_set};

    // Places the next hop of a leg, if it shares no device with the placements of the slot, which stand from `mark` on.
    fn join(&mut self, slot: u16, mark: usize, leg: usize)
        requires left { done_of (stand self.old).progress leg < size_of (stand self.old).frame leg }
        requires marked { mark ≤ length (stand self.old).trail }
        requires free { length (stand self.old).trail - mark < (stand self.old).frame.channels }
        requires room { length (stand self.old).trail < hop_total (stand self.old).frame.legs }
        ensures { stand self.new ≡ joined slot mark leg (stand self.old) }
    {
        let offset = (self.trail.len() - mark) as u8;
        let done = self.progress[leg];
        let new = placement(self.frame, slot, offset, leg, done);
        if is_apart(&new, self.trail.from(mark)) {
            self.trail.push(new);
            self.progress[leg] = done + 1;
        }
    }

    // Fills the slot: goes through the legs in their order, and places the next hop of each that can join, until the channels
    // are used up.
    pub(crate) fn fill(&mut self, slot: u16, order: &[Ranked])
        requires ready { Ready (stand self.old).frame (stand self.old).progress (legs_of order.now) }
        requires room { length (stand self.old).trail + length order.now ≤ hop_total (stand self.old).frame.legs }
        ensures { stand self.new
            ≡ with_set slot (greedy (stand self.old).frame (stand self.old).progress [] (legs_of order.now)) (stand self.old) }
    {
        let mark = self.trail.len();
        let channels = self.frame.channels() as usize;
        for entry in order {
            if self.trail.len() - mark >= channels {
                return;
            }
            self.join(slot, mark, entry.leg as usize);
        }
    }
}
