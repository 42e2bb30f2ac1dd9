// The legs of the flows in force, and their frame.
#![tactic(auto)]

mod expansion;
mod framing;
mod hops;
mod leg;

pub use framing::frame_of;
