ghost use Rattle.std.specs.Prelude.{◌≡◌};
ghost use Rattle.frame.specs.Moments.{at_moment};
ghost use Rattle.frame.specs.Frames.{frame_spec};
ghost use Rattle.frame.specs.Legs.{leg_spec};
ghost use Rattle.frame.specs.Reads.{leg_complete, leg_released, leg_late};
ghost use Rattle.frame.specs.States.{done_of, fits, is_state_at, released, overdue, complete};

use crate::leg::Leg;
use crate::moment::Moment;

// A slot and one number that is done, not a moment: a leg sees only its own number.
impl Leg {
    // Whether all hops are done.
    fn is_complete(&self, done: u8) -> bool
        ensures { result ≡ leg_complete (leg_spec self.now) done }
    {
        self.count <= done
    }

    // Whether its next hop is released: it is undone, and the release has come.
    fn is_released(&self, slot: u16, done: u8) -> bool
        ensures { result ≡ leg_released (leg_spec self.now) slot done }
    {
        done < self.count && self.release <= slot
    }

    // Whether some undone hop cannot be in time: all undone hops of a leg can, or none can.
    fn is_late(&self, slot: u16, done: u8) -> bool
        ensures { result ≡ leg_late (leg_spec self.now) slot done }
    {
        if done >= self.count {
            return false;
        }
        let undone = (self.count - done) as u32;
        self.release.max(slot) as u32 + undone > self.due as u32 + 1
    }
}

// The number of hops of a leg that are done, for those who have no frame at hand.
pub fn done(progress: &[u8], leg: usize) -> u8
    ensures { result ≡ done_of progress.now leg }
{
    progress.get(leg).copied().unwrap_or(0)
}

impl Moment<'_> {
    // The number of hops of a leg that are done.
    pub fn done(self, leg: usize) -> u8
        ensures { result ≡ done_of self.entry.progress.now leg }
    {
        done(self.progress, leg)
    }

    // Whether the next hop of a leg is released: it is undone, and the leg's release has come.
    pub fn is_released(self, leg: usize) -> bool
        ensures { result ≡ at_moment released self.entry leg }
    {
        let done = self.done(leg);
        let found = self.frame.legs().get(leg);
        found.is_some_and(|found| found.is_released(self.slot, done))
    }

    // Whether all hops are done.
    pub fn is_complete(self) -> bool
        ensures { result ≡ complete (frame_spec self.entry.frame.now) self.entry.progress.now }
    {
        let mut legs = self.frame.legs().iter().enumerate();
        legs.all(|(i, leg)| leg.is_complete(self.done(i)))
    }

    // Whether some undone hop cannot be in time.
    pub fn is_overdue(self) -> bool
        ensures { result ≡ at_moment overdue self.entry }
    {
        let mut legs = self.frame.legs().iter().enumerate();
        legs.any(|(i, leg)| leg.is_late(self.slot, self.done(i)))
    }

    // Whether its progress has a number for each leg, none above the leg's hops.
    fn fits(self) -> bool
        ensures { result ≡ fits (frame_spec self.entry.frame.now).legs self.entry.progress.now }
    {
        let legs = self.frame.legs();
        legs.len() == self.progress.len()
            && legs
                .iter()
                .zip(self.progress)
                .all(|(leg, done)| *done <= leg.count)
    }

    // Whether it is a state: a slot of the frame or one past it, and a progress that fits.
    pub fn is_state(self) -> bool
        ensures { result ≡ at_moment is_state_at self.entry }
    {
        (1..=self.frame.slots + 1).contains(&self.slot) && self.fits()
    }
}
