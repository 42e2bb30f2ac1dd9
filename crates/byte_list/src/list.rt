ghost use Rattle.std.specs.Prelude.{◌≤◌, ◌≡◌, ◌<◌, ◌==◌, [], ◌∷◌, ◌++◌, length};

// At most N bytes. They lie in the value itself, so it allocates nothing and can be copied. Places past `len` mean nothing.
#[derive(Clone, Copy)]
pub struct ByteList<const N: usize> {
    pub(crate) places: [u8; N],
    pub(crate) len: usize,
    ghost fits: { len ≤ N },
}

impl<const N: usize> ByteList<N> {
    ghost use Rattle.byte_list.specs.Bytes.{bytes_in};

    // No bytes yet.
    pub fn new() -> ByteList<N>
        ensures { bytes_in result ≡ [] }
    {
        ByteList {
            places: [0; N],
            len: 0,
        }
    }

    // These bytes, for which there is room.
    pub fn from_slice(bytes: &[u8]) -> ByteList<N>
        requires { length bytes.now ≤ N }
        ensures { bytes_in result ≡ bytes.now }
    {
        let mut places = [0; N];
        places[..bytes.len()].copy_from_slice(bytes);
        ByteList {
            places,
            len: bytes.len(),
        }
    }

    // The number of bytes.
    pub fn len(&self) -> usize
        ensures value { result ≡ length (bytes_in self.now) }
        ensures most { result ≤ N }
    {
        self.as_slice().len()
    }

    // Whether there is none.
    pub fn is_empty(&self) -> bool
        ensures { result ≡ (length (bytes_in self.now) == 0) }
    {
        self.len == 0
    }

    // Whether there is no room for one more.
    pub fn is_full(&self) -> bool
        ensures { result ≡ (length (bytes_in self.now) == N) }
    {
        self.len >= N
    }

    // One byte more, for which there is room.
    pub fn push(&mut self, byte: u8)
        requires { length (bytes_in self.old) < N }
        ensures { bytes_in self.new ≡ bytes_in self.old ++ byte ∷ [] }
    {
        self.places[self.len] = byte;
        self.len += 1;
    }

    // Lets all bytes go.
    pub fn clear(&mut self)
        ensures { bytes_in self.new ≡ [] }
    {
        self.len = 0;
    }

    // The bytes, in order.
    pub fn as_slice(&self) -> &[u8]
        ensures { result.now ≡ bytes_in self.now }
    {
        let places: &[u8] = &self.places;
        &places[..self.len]
    }
}
