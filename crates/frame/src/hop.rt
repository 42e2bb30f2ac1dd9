// A transmission from one device to the next. It is at both.
#[derive(Clone, Copy, Debug, PartialEq, Eq)]
pub struct Hop {
    pub sender: u8,
    pub receiver: u8,
}
