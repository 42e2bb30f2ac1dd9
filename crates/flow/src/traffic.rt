ghost use Rattle.std.specs.Prelude.{◌≤◌};

use crate::routes::Routes;

// A flow: every `period` slots a packet is released, and it is due within `deadline` slots over each route.
#[derive(Clone, Copy)]
pub struct Flow {
    pub number: u16,
    pub period: u16,
    pub deadline: u16,
    pub routes: Routes,
    ghost numbered: { 1 ≤ number },
    ghost named: { number ≤ 999 },
    ghost timed: { 1 ≤ deadline },
    ghost prompt: { deadline ≤ period },
    ghost regular: { period ≤ 1024 },
}
