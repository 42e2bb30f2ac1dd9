// The lifetime of an undone hop: it can be sent from slot `first` to slot `last`, after `before` undone hops of its leg
// and before `after` of them. `last` may be negative.
#[derive(Clone, Copy, Debug, PartialEq, Eq)]
pub struct Lifetime {
    pub before: u8,
    pub after: u8,
    pub first: u16,
    pub last: i16,
}
