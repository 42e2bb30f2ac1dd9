ghost use Rattle.std.specs.Prelude.{◌≤◌, length, vec_capacity, ◌≡◌, ◌-◌, ◌<◌, ◌==◌, [], ◌∷◌, ◌++◌, IfOk, insert, remove, slice_get, take, Some};

use std::alloc::{AllocError, Global};

// At most N entries. Memory for all of them is there when the list is made, so no later call allocates.
#[derive(Drop)]
pub struct Reserved<T, const N: usize> {
    pub(crate) entries: Vec<T>,
    ghost room: { N ≤ vec_capacity entries },
    ghost few: { length entries.items ≤ N },
}

impl<T: Copy, const N: usize> Reserved<T, N> {
    ghost use Rattle.reserved.specs.Held.{held, memory_of};

    // No entries yet, with memory for N.
    pub fn new(heap: Global) -> Result<Reserved<T, N>, AllocError>
        ensures { IfOk result (λ r. held r ≡ []) }
    {
        let entries = Vec::with_capacity(heap, N)?;
        Ok(Reserved { entries })
    }

    // The first N entries of a list, in its memory, which is for N at least.
    pub fn from_vec(mut entries: Vec<T>) -> Reserved<T, N>
        requires { N ≤ vec_capacity entries }
        ensures value { held result ≡ take N entries.items }
        ensures memory { memory_of result ≡ vec_capacity entries }
    {
        entries.truncate(N);
        Reserved { entries }
    }

    // The number of entries.
    pub fn len(&self) -> usize
        ensures value { result ≡ length (held self.now) }
        ensures most { result ≤ N }
    {
        self.entries.len()
    }

    // Whether there is none.
    pub fn is_empty(&self) -> bool
        ensures { result ≡ (length (held self.now) == 0) }
    {
        self.len() == 0
    }

    // Whether there is no room for one more.
    pub fn is_full(&self) -> bool
        ensures { result ≡ (length (held self.now) == N) }
    {
        self.len() == N
    }

    // The entries, in order.
    pub fn as_slice(&self) -> &[T]
        ensures value { result.now ≡ held self.now }
        ensures most { length result.now ≤ N }
    {
        self.entries.as_slice()
    }

    // The last entry, if there is one.
    pub fn last(&self) -> Option<T>
        ensures { result ≡ slice_get (held self.now) (length (held self.now) - 1) }
    {
        self.as_slice().last().copied()
    }

    // One entry more at the end, for which there is room.
    pub fn push(&mut self, entry: T)
        requires { length (held self.old) < N }
        ensures value { held self.new ≡ held self.old ++ entry ∷ [] }
        ensures memory { memory_of self.new ≡ memory_of self.old }
    {
        self.entries.push_reserved(entry);
    }

    // One entry more before that at an index, or at the end. There is room.
    pub fn insert(&mut self, index: usize, entry: T)
        requires within { index ≤ length (held self.old) }
        requires room { length (held self.old) < N }
        ensures value { held self.new ≡ insert (held self.old) index entry }
        ensures memory { memory_of self.new ≡ memory_of self.old }
    {
        // There is room, so it does not fail.
        let _ = self.entries.insert(index, entry);
    }

    // The entry at an index, taken out.
    pub fn remove(&mut self, index: usize) -> T
        requires { index < length (held self.old) }
        ensures value { slice_get (held self.old) index ≡ Some result }
        ensures left { held self.new ≡ remove (held self.old) index }
        ensures memory { memory_of self.new ≡ memory_of self.old }
    {
        self.entries.remove(index)
    }

    // The last entry, taken off, if there is one.
    pub fn pop(&mut self) -> Option<T>
        ensures value { result ≡ slice_get (held self.old) (length (held self.old) - 1) }
        ensures left { held self.new ≡ take (length (held self.old) - 1) (held self.old) }
        ensures memory { memory_of self.new ≡ memory_of self.old }
    {
        self.entries.pop()
    }

    // Lets all entries go.
    pub fn clear(&mut self)
        ensures value { held self.new ≡ [] }
        ensures memory { memory_of self.new ≡ memory_of self.old }
    {
        self.entries.clear();
    }
}

#[cfg(test)]
mod tests {
    use super::*;
    use std::test::Fail;

    // Memory can be had, and holds what is put there.
    #[test]
    fn new_succeeds(rt: HostRuntime) -> Result<(), Fail> {
        let mut list: Reserved<u16, 3> = Reserved::new(rt.alloc())?;
        list.push(2);
        list.insert(0, 1);
        assert_eq!(rt; list.as_slice(), [1, 2].as_slice());
        assert_eq!(rt; list.pop(), Some(2));
        Ok(())
    }
}
