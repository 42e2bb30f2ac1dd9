ghost use Rattle.std.specs.Prelude.{◌≡◌};
ghost use Rattle.frame.specs.Moments.{at_moment};
ghost use Rattle.ranking.specs.Bounds.{LaxityBounds};
ghost use Rattle.ranking.specs.Laxity.{conflict_aware};

use crate::hops::released_hop;
use crate::ranking::Ranking;
use crate::sweep::least_slack;
use frame::Moment;

// Conflict-aware least laxity first: of the ends of lifetimes that begin within a hop's own at its sender, the least number
// of slots that stay free until then if the sender is at every hop that must end by then.
#[derive(Clone, Copy, Debug, PartialEq, Eq)]
pub struct ConflictAware;

impl ConflictAware {
    // The conflict-aware laxity of the next hop of a leg, where it is released in a state; else 0.
    pub fn laxity(&self, moment: Moment<'_>, leg: usize) -> i32
        ensures value { result ≡ at_moment conflict_aware moment.entry leg }
        ensures bounds { at_moment LaxityBounds moment.entry result }
    {
        // no `map_or`: tried, and of a closure that holds a moment and hands it on nothing was known
        let Some(hop) = released_hop(moment, leg) else {
            return 0;
        };
        least_slack(moment, hop)
    }
}

impl Ranking for ConflictAware {
    ghost key = { λ _. conflict_aware };

    fn rank(&self, moment: Moment<'_>, leg: usize) -> i32 {
        self.laxity(moment, leg)
    }
}
