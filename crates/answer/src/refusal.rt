// What a refusal says: its number in the list of refusals, and the flow, route and position it names (0: none).
// Numbers and no enum: it is the row that is printed. The kinds of refusals are the enums of the crates that refuse.
#[derive(Clone, Copy, Debug, Default, PartialEq, Eq)]
pub struct Refusal {
    pub number: u8,
    pub flow: u16,
    pub route: u8,
    pub position: u8,
}
