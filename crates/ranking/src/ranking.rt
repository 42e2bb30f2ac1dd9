ghost use Rattle.std.specs.Prelude.{◌≡◌, ℕ, List, ℤ};
ghost use Rattle.frame.specs.Moments.{at_moment};
ghost use Rattle.frame.specs.Frames.{FrameSpec, frame_spec};

use frame::Moment;

// A ranking gives each leg whose next hop is released in a state a key; the lowest goes first, ties by leg order. Asked of
// anything else, the rankings here give 0: a rule of the project.
pub trait Ranking {
    // the key of a leg at a slot and progress of a frame
    ghost key: { Self → FrameSpec → ℕ → List ℕ → ℕ → ℤ };

    fn rank(&self, moment: Moment<'_>, leg: usize) -> i32
        ensures { result ≡ at_moment (key self.now) moment.entry leg };
}
