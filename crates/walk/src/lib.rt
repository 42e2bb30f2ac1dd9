// Walks that fill a frame.
#![tactic(auto)]

mod answer;
mod cell;
mod enter;
mod fill;
mod memory;
mod quick_walk;
mod rank;
mod ranked;
mod run;
mod short;
mod stack;
mod walking;

pub use answer::QuickAnswer;
pub use quick_walk::quick;
pub use short::Short;
