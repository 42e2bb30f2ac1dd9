// The answers of a console, written as bytes into memory that the caller lends.
#![tactic(auto)]

mod page;
mod refusal;
mod write;

pub use refusal::Refusal;
pub use write::write_answer;
