#![tactic(auto)]

ghost use Rattle.worked.specs.Worked.{Worked};

// Says that the definitions give the numbers of a frame worked by hand: see specs/Worked.antt.
pub fn frame_worked_by_hand()
    ensures { Worked }
{}
