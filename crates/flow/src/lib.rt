// Routes and flows: types that hold only what the rules allow, and the reading of routes from bytes.
#![tactic(auto)]

mod fault;
mod gather;
mod hops;
mod read;
mod route;
mod routes;
mod scan;
mod traffic;

pub use fault::RouteFault;
pub use route::Route;
pub use routes::Routes;
pub use traffic::Flow;
