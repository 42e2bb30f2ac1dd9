// One frame: its legs, states of filling it, and grids.
#![tactic(auto)]

mod frame;
mod hop;
mod leg;
mod lifetime;
mod lifetimes;
mod making;
mod memory;
mod moment;
mod placement;
mod reads;
mod states;
mod tables;
mod visit;

pub use frame::Frame;
pub use hop::Hop;
pub use leg::Leg;
pub use lifetime::Lifetime;
pub use memory::{FrameMemory, LEGS};
pub use moment::Moment;
pub use placement::Placement;
pub use states::done;
pub use visit::Visit;
