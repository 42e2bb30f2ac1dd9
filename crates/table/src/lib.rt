// The table of the flows in force, and what keeps a flow out of it.
#![tactic(auto)]

mod edits;
mod fault;
mod frame;
mod places;
mod request;
mod table;
mod vet;

pub use fault::{PlanFault, PlanRule};
pub use request::FlowRequest;
pub use table::FlowTable;
