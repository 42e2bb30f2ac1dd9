ghost use Rattle.std.specs.Prelude.{◌≡◌, ◌<◌, ◌≤◌};
ghost use Rattle.frame.specs.Moments.{at_moment};
ghost use Rattle.frame.specs.Legs.{leg_spec};
ghost use Rattle.frame.specs.Reads.{leg_lifetime, lifetime_of};

use crate::leg::Leg;
use crate::lifetime::Lifetime;
use crate::moment::Moment;

impl Leg {
    // The lifetime of a hop that is undone.
    fn lifetime(&self, slot: u16, done: usize, hop: usize) -> Lifetime
        requires slot { slot ≤ 1025 }
        requires hop { (done ≤ hop) × (hop < self.now.count) }
        ensures { result ≡ leg_lifetime (leg_spec self.now) slot done hop }
    {
        let before = (hop - done) as u8;
        let after = (self.count as usize - 1 - hop) as u8;
        Lifetime {
            before,
            after,
            first: self.release.max(slot) + before as u16,
            // due less after, as `Visit::end`, but of a leg and of 16 bits: no visit is at hand
            last: self.due as i16 - after as i16,
        }
    }
}

impl Moment<'_> {
    // The lifetime of a hop of a leg, where it is an undone hop of a state.
    pub fn lifetime(self, leg: usize, hop: usize) -> Option<Lifetime>
        ensures { result ≡ at_moment lifetime_of self.entry leg hop }
    {
        let found = self.frame.legs().get(leg)?;
        let done = self.done(leg) as usize;
        if !self.is_state() || !(done..found.count as usize).contains(&hop) {
            return None;
        }
        Some(found.lifetime(self.slot, done, hop))
    }
}
