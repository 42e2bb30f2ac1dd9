ghost use Rattle.std.specs.Prelude.{◌≡◌, ◌≤◌, length};

use crate::hop::Hop;

// A leg: one packet of a flow on one route. From slot `release` on, and not after slot `due`, it crosses its hops in
// order. Places of `hops` past `count` mean nothing.
// An array with a count, and no `Vec`: a leg is `Copy` and allocates nothing.
#[derive(Clone, Copy)]
pub struct Leg {
    pub flow: u16,
    pub route: u8,
    pub release: u16,
    pub due: u16,
    pub hops: [Hop; 8],
    pub count: u8,
    ghost places: { length hops ≡ 8 },
    ghost some: { 1 ≤ count },
    ghost few: { count ≤ 8 },
    ghost started: { 1 ≤ release },
    ghost timed: { release ≤ due },
    ghost ends: { due ≤ 1024 },
}
