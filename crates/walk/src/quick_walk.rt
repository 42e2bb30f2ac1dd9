ghost use Rattle.walk.specs.Runs.{Runs, lent};
ghost use Rattle.frame.specs.Frames.{frame_spec};

use crate::answer::QuickAnswer;
use crate::memory::{check_memory, copy_front};
use crate::short::Short;
use crate::walking::Walk;
use frame::{Frame, Placement};
use ranking::Ranking;

// Fills the frame by the quick walk: the first set at each state, and no way back. Answers the number of placements of the
// grid, which then stand at the front of `grid`, or the first slot in which some hop cannot be in time. Refused where a
// memory is too short, which leaves them all as they were. After a granted call trail, marks and progress hold anything.
// The four memories are four parameters by a rule of the project: the caller lends each as a slice of its own.
pub fn quick<R: Ranking>(
    frame: &Frame,
    ranking: &R,
    trail: &mut [Placement],
    marks: &mut [u16],
    progress: &mut [u8],
    grid: &mut [Placement],
) -> Result<QuickAnswer, Short>
    ensures { Runs (frame_spec frame.now) (R.Ranking.key ranking.now)
        (lent trail.old marks.old progress.old grid.old)
        (lent trail.new marks.new progress.new grid.new) result }
{
    check_memory(frame, trail.len(), marks.len(), progress.len(), grid.len())?;
    let legs = frame.legs().len();
    let mut walk = Walk::new(frame, trail, marks, &mut progress[..legs]);
    let answer = walk.run(ranking);
    if let QuickAnswer::Grid(_) = answer {
        copy_front(walk.trail.from(0), grid);
    }
    Ok(answer)
}
