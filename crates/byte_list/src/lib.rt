// Lists of bytes in fixed memory.
#![tactic(auto)]

mod list;

pub use list::ByteList;
