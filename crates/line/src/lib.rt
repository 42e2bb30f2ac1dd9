// One line of the console: the bytes that were received, and the call that they spell.
#![tactic(auto)]

mod call;
mod line_buffer;
mod number;
mod pieces;
mod read;
mod routes;

pub use call::Call;
pub use line_buffer::LineBuffer;
pub use read::read_line;
