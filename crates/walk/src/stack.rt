ghost use Rattle.std.specs.Prelude.{◌≤◌, length};

mod entries;

// A stack in lent memory, of any kind of entry that copies: its entries are the first `len` places of `room`. A slice with a
// length is a form that the project fixes. Each call promises that the room stays: no type holds the length of lent memory.
#[derive(Drop)]
pub(crate) struct Stack<'a, T> {
    room: &'a mut [T],
    len: usize,
    ghost fits: { len ≤ length room.now },
}
