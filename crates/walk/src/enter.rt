use crate::rank::rank_legs;
use crate::ranked::Ranked;
use crate::stack::Stack;
use crate::walking::Walk;
use ranking::Ranking;

impl Walk<'_> {
    ghost use Rattle.std.specs.Prelude.{◌≡◌, ◌≤◌, true, length, sum};
    ghost use Rattle.frame.specs.Frames.{leg_count};
    ghost use Rattle.frame.specs.States.{fits};
    ghost use Rattle.walk.specs.Stacks.{room_of};
    ghost use Rattle.walk.specs.Walks.{stand, entered};

    // Sends the first set of a state: ranks the released hops, marks where the slot begins in the trail, and fills the slot.
    pub(crate) fn enter<R: Ranking>(
        &mut self,
        ranking: &R,
        slot: u16,
        ranked: &mut Stack<'_, Ranked>,
    )
        requires fits { fits (stand self.old).frame.legs (stand self.old).progress ≡ true }
        requires counted { length (stand self.old).trail ≡ sum (stand self.old).progress }
        requires marks { length (stand self.old).marks ≤ (stand self.old).frame.slots }
        requires room { leg_count (stand self.old).frame ≤ room_of ranked.old }
        ensures entered { stand self.new ≡ entered (R.Ranking.key ranking.now) slot (stand self.old) }
        ensures whole { room_of ranked.new ≡ room_of ranked.old }
    {
        rank_legs(ranking, self.moment(slot), ranked);
        let mark = self.trail.len() as u16;
        self.marks.push(mark);
        self.fill(slot, ranked.from(0));
    }
}
