ghost use Rattle.std.specs.Prelude.{◌≡◌};
ghost use Rattle.ranking.specs.Laxity.{least_laxity};

use crate::hops::released_hop;
use crate::ranking::Ranking;
use frame::Moment;

// Least laxity first: the key of a released hop is the number of slots until the end of its lifetime.
#[derive(Clone, Copy, Debug, PartialEq, Eq)]
pub struct LeastLaxity;

impl Ranking for LeastLaxity {
    ghost key = { λ _. least_laxity };

    fn rank(&self, moment: Moment<'_>, leg: usize) -> i32 {
        released_hop(moment, leg).map_or(0, |hop| hop.laxity(moment.slot))
    }
}
