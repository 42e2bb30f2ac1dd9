// The plan: flows in force, channel map and change list, edited while it is open.
#![tactic(auto)]

mod changes;
mod channels;
mod edit;
mod freeze;
mod frozen;
mod phase;
mod plan;
mod reversal;

pub use channels::ChannelMap;
pub use phase::Phase;
pub use plan::{FrozenPlan, OpenPlan, Plan};
