ghost use Rattle.std.specs.Prelude.{◌≡◌};
ghost use Rattle.frame.specs.Frames.{frame_spec};
ghost use Rattle.legs.specs.Expand.{frame_of};
ghost use Rattle.walk.specs.Runs.{Runs, lent};
ghost use Rattle.plan.specs.Journal.{Journal, standing};
ghost use Rattle.plan.specs.Plans.{After};

use crate::plan::FrozenPlan;
use frame::{Frame, Placement};
use ranking::Ranking;
use walk::{QuickAnswer, Short};

impl FrozenPlan {
    // The frame of the flows in force over the channels of the map.
    pub fn frame(&self) -> &Frame
        ensures value { result.now ≡ self.now.phase }
        ensures law { (j : Journal) → After j self.now →
            frame_spec result.now ≡ frame_of (standing j).flows (standing j).channels }
    {
        &self.phase
    }

    // Fills the frame with the first set of each slot, in the order of a ranking. Answers the number of placements, which
    // then stand at the front of `grid`, or the slot in which some hop cannot be in time any more. The frame must fit the
    // memory: a memory that is too short is refused. After a call that is granted, trail, marks and progress hold anything.
    // The four memories are four parameters by a rule of the project: the caller lends each as a slice of its own.
    pub fn quick<R: Ranking>(
        &self,
        ranking: &R,
        trail: &mut [Placement],
        marks: &mut [u16],
        progress: &mut [u8],
        grid: &mut [Placement],
    ) -> Result<QuickAnswer, Short>
        ensures { (j : Journal) → After j self.now →
            Runs (frame_of (standing j).flows (standing j).channels) (R.Ranking.key ranking.now)
            (lent trail.old marks.old progress.old grid.old)
            (lent trail.new marks.new progress.new grid.new) result }
    {
        walk::quick(self.frame(), ranking, trail, marks, progress, grid)
    }
}
