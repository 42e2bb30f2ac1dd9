ghost use Rattle.std.specs.Prelude.{◌≡◌};
ghost use Rattle.console.specs.declared.fault.ConsoleRule.TheVariants.{Plan};

use table::PlanFault;

// Why a line is refused, or its answer cannot be given.
#[derive(Clone, Copy, Debug, PartialEq, Eq)]
pub enum ConsoleRule {
    // the line is none that the console knows
    Unreadable,
    // the plan refuses the call
    Plan(PlanFault),
    // the memory for the answer is too short
    Memory,
}

impl From<PlanFault> for ConsoleRule {
    ghost from_gives = { λ fault rule. rule ≡ Plan fault };

    fn from(fault: PlanFault) -> ConsoleRule {
        ConsoleRule::Plan(fault)
    }
}

// The first rule that a line breaks, and the line's number.
#[derive(Clone, Copy, Debug, PartialEq, Eq)]
pub struct ConsoleFault {
    pub line: u32,
    pub rule: ConsoleRule,
}

// A line whose call was granted, by its number.
// Granted and refused each carry the line, and no struct beside a `Result` does: a fault goes up by `?` with its line.
#[derive(Clone, Copy, Debug, PartialEq, Eq)]
pub struct Granted {
    pub line: u32,
}
