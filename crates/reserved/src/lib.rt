// Lists whose memory is reserved when they are made.
#![tactic(auto)]

mod list;

pub use list::Reserved;
