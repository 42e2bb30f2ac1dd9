// What quick answers: the number of placements in the grid, or the first slot in which some hop cannot be in time. A miss is
// an answer, which says where the walk ended, and no error: so it stands here, and not in a `Result`.
#[derive(Clone, Copy, Debug, PartialEq, Eq)]
pub enum QuickAnswer {
    Grid(usize),
    Missed(u16),
}
