// The console: bytes in, answers out.
#![tactic(auto)]

mod fault;
mod obey;
mod receive;
mod refuse;
mod state;
mod write;

pub use fault::{ConsoleFault, ConsoleRule, Granted};
pub use state::Console;
pub use write::write_reply;
