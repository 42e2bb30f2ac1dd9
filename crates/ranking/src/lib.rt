// Rankings of released hops.
#![tactic(auto)]

mod conflict;
mod hops;
mod plain;
mod ranking;
mod sweep;

pub use conflict::ConflictAware;
pub use plain::LeastLaxity;
pub use ranking::Ranking;
