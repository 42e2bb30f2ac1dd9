ghost use Rattle.std.specs.Prelude.{◌≡◌, ◌+◌, ◌-◌, ◌<◌, ◌≤◌, max, pos, negsuc, ◌+ℤ◌, ◌-ℤ◌, ◌≤ℤ◌, int_le};
ghost use Rattle.frame.specs.Frames.{frame_spec};
ghost use Rattle.frame.specs.Visits.{end_of, visits_at};
ghost use Rattle.ranking.specs.Sweep.{is_live_end, least_slack_of, met, passed};

use crate::hops::NextHop;
use frame::{Moment, Visit};

// A pass over the hops at a device by the ends of their lifetimes: the undone ones so far, the end of the latest of them
// where a hop with that end begins in time, and the least laxity so far.
#[derive(Clone, Copy)]
pub(crate) struct Sweep {
    pub(crate) count: u16,
    pub(crate) live: Option<i32>,
    pub(crate) best: i32,
}

// The slots from `slot` to the end of a hop's lifetime, less so many hops.
fn slack(visit: &Visit, slot: u16, count: u16) -> i32
    ensures { result ≡ ((end_of visit.now -ℤ pos slot) +ℤ pos 1) -ℤ pos count }
{
    visit.end() - slot as i32 + 1 - count as i32
}

// Whether the lifetime of an undone hop begins no later than that of the ranked hop ends.
fn begins_by(visit: &Visit, slot: u16, done: u8, hop: NextHop) -> bool
    requires { done ≤ visit.now.place }
    ensures { result ≡ int_le (pos (max visit.now.release slot + (visit.now.place - done))) hop.end }
{
    let first = visit.release.max(slot) as i32 + (visit.place - done) as i32;
    first <= hop.end as i32
}

impl Sweep {
    // Whether the end of the next hop counts: it begins in time, or one before it with the same end does.
    fn is_live(self, timely: bool, end: i32) -> bool
        ensures { result ≡ is_live_end timely end self }
    {
        timely || self.live.is_some_and(|last| end <= last)
    }

    // One more undone hop, which begins in time or not.
    fn pass(self, slot: u16, timely: bool, visit: &Visit) -> Sweep
        requires { self.count < 2048 }
        ensures { result ≡ passed slot timely (end_of visit.now) self }
    {
        let count = self.count + 1;
        let end = visit.end();
        if !self.is_live(timely, end) {
            return Sweep {
                count,
                live: None,
                best: self.best,
            };
        }
        Sweep {
            count,
            live: Some(end),
            best: self.best.min(slack(visit, slot, count)),
        }
    }

    // One more hop, which counts where it is undone; it begins in time if within the lifetime of the ranked hop.
    fn meet(self, moment: Moment<'_>, hop: NextHop, visit: &Visit) -> Sweep
        requires { self.count < 2048 }
        ensures { result ≡ met moment.entry.slot hop.end moment.entry.progress.now self visit.now }
    {
        let done = moment.done(visit.leg as usize);
        if visit.place < done {
            return self;
        }
        self.pass(moment.slot, begins_by(visit, moment.slot, done, hop), visit)
    }
}

// The least of the next hop's plain laxity and the slacks that one pass over the hops at its sender finds.
#[tactic(auto, using(crate::proofs::Slacks::met_count))]
pub(crate) fn least_slack(moment: Moment<'_>, hop: NextHop) -> i32
    ensures { result ≡ least_slack_of moment.entry.slot hop.end moment.entry.progress.now
        (visits_at (frame_spec moment.entry.frame.now).legs hop.sender) }
{
    let mut sweep = Sweep {
        count: 0,
        live: None,
        best: hop.laxity(moment.slot),
    };
    // no `fold`: tried, and in its closure the bound on the count, which `meet` requires, is not known
    for visit in moment.frame.visits(hop.sender) {
        sweep = sweep.meet(moment, hop, visit);
    }
    sweep.best
}
