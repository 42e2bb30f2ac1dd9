// A cell of the grid: in this slot, at this channel offset, `sender` sends hop `hop` of a route of a flow to `receiver`.
// Routes and hops count from 1, offsets from 0.
#[derive(Clone, Copy, Debug, PartialEq, Eq)]
pub struct Placement {
    pub slot: u16,
    pub offset: u8,
    pub sender: u8,
    pub receiver: u8,
    pub flow: u16,
    pub route: u8,
    pub hop: u8,
}
