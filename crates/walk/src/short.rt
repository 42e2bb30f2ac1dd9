// The first memory that is too short for the frame, in the order of their positions.
#[derive(Clone, Copy, Debug, PartialEq, Eq)]
pub enum Short {
    // fewer places than the frame has hops
    Trail,
    // not one mark for each slot and one more
    Marks,
    // not one byte for each leg
    Progress,
    // fewer places than the frame has hops
    Grid,
}
