ghost use Rattle.std.specs.Prelude.{◌≡◌, ℕ, List};
ghost use Rattle.flow.specs.Flows.{FlowSpec};
ghost use Rattle.frame.specs.Frames.{frame_spec};
ghost use Rattle.legs.specs.Expand.{frame_of};

use frame::{Frame, FrameMemory};

// What a plan holds for its frame: the memory while it is open, the frame itself while it is frozen.
pub trait Phase {
    // it fits these flows over the channels of this map
    ghost Suits: { Self → List FlowSpec → ℕ → Type 0 };
}

// Memory fits any flows.
impl Phase for FrameMemory {
    ghost Suits = { λ _ _ _. Unit {0} };
}

// A frame fits those that it is the frame of.
impl Phase for Frame {
    ghost Suits = { λ frame flows channels. frame_spec frame ≡ frame_of flows channels };
}
