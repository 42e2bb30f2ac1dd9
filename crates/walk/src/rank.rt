ghost use Rattle.std.specs.Prelude.{◌≡◌, ◌≤◌};
ghost use Rattle.frame.specs.Frames.{frame_spec, leg_count};
ghost use Rattle.walk.specs.Orders.{entries_by};
ghost use Rattle.walk.specs.Stacks.{entries, room_of};

use crate::ranked::Ranked;
use crate::stack::Stack;
use frame::Moment;
use ranking::Ranking;

// Lists the legs whose next hop is released, the lowest key first, ties by leg order.
pub(crate) fn rank_legs<R: Ranking>(ranking: &R, moment: Moment<'_>, ranked: &mut Stack<'_, Ranked>)
    requires { leg_count (frame_spec moment.frame.now) ≤ room_of ranked.old }
    ensures ranked { entries ranked.new
        ≡ entries_by (frame_spec moment.entry.frame.now) (R.Ranking.key ranking.now)
        moment.entry.slot moment.entry.progress.now }
    ensures whole { room_of ranked.new ≡ room_of ranked.old }
{
    ranked.clear();
    // over numbers: a leg is ranked by its number
    for leg in 0..moment.frame.legs().len() {
        if moment.is_released(leg) {
            let key = ranking.rank(moment, leg);
            let leg = leg as u16;
            ranked.push(Ranked { key, leg });
        }
    }
    ranked.sort();
}
