use crate::answer::QuickAnswer;
use crate::ranked::Ranked;
use crate::stack::Stack;
use crate::walking::Walk;
use ranking::Ranking;

impl Walk<'_> {
    ghost use Rattle.std.specs.Prelude.{◌≡◌, ◌≤◌, length};
    ghost use Rattle.frame.specs.Legs.{hop_total};
    ghost use Rattle.walk.specs.Outcomes.{quick_outcome, answered};
    ghost use Rattle.walk.specs.Walking.{Shows};
    ghost use Rattle.walk.specs.Walks.{stand, start};

    // The quick walk from its start on: the first set at each state, until all hops are done or some hop cannot be in time.
    // The trail then holds the placements of the sets, and the marks where each slot begins in it.
    pub(crate) fn run<R: Ranking>(&mut self, ranking: &R) -> QuickAnswer
        requires { stand self.old ≡ start (stand self.old).frame }
        ensures answer { result ≡ answered (quick_outcome (stand self.old).frame (R.Ranking.key ranking.now)) }
        ensures shown { Shows (quick_outcome (stand self.old).frame (R.Ranking.key ranking.now)) (stand self.new).trail }
        ensures few { length (stand self.new).trail ≤ hop_total (stand self.old).frame.legs }
    {
        // made once, with room for each leg of a frame: no slot allocates
        let mut room = [Ranked::default(); 2048];
        let mut ranked = Stack::new(&mut room);
        let mut slot = 1;
        // no range of slots: that the walk ends is the loop's measure, and behind a range there would be nothing to answer
        loop {
            let here = self.moment(slot);
            if here.is_complete() {
                let count = self.trail.len();
                return QuickAnswer::Grid(count);
            }
            if here.is_overdue() {
                return QuickAnswer::Missed(slot);
            }
            self.enter(ranking, slot, &mut ranked);
            slot += 1;
        }
    }
}
