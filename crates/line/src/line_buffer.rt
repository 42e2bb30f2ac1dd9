ghost use Rattle.std.specs.Prelude.{◌≡◌, ℕ, List, [], ◌∷◌, ◌++◌, take};
ghost use Rattle.std.specs.Option.{option_map};
ghost use Rattle.line.specs.Grammar.{read_line_of};
ghost use Rattle.line.specs.Held.{held, call_of};

use crate::call::Call;
use crate::read::read_line;
use byte_list::ByteList;

// The line that is being received: its first 161 bytes, which is enough to tell that it is too long.
#[derive(Clone, Copy)]
pub struct LineBuffer {
    bytes: ByteList<161>,
}

impl LineBuffer {
    // No byte was received yet.
    pub fn new() -> LineBuffer
        ensures { held result ≡ [] }
    {
        LineBuffer {
            bytes: ByteList::new(),
        }
    }

    // Takes one more byte, unless the line is too long already.
    #[tactic(auto, using(crate::proofs::Fronts::pushes))]
    pub fn push(&mut self, byte: u8)
        ensures { held self.new ≡ take 161 (held self.old ++ byte ∷ []) }
    {
        if !self.bytes.is_full() {
            self.bytes.push(byte);
        }
    }

    // Lets the line go, for the next one.
    pub fn clear(&mut self)
        ensures { held self.new ≡ [] }
    {
        self.bytes.clear();
    }

    // The bytes that were received, 161 at most.
    pub fn as_slice(&self) -> &[u8]
        ensures { result.now ≡ held self.now }
    {
        self.bytes.as_slice()
    }

    // The call of the whole line, of which the first bytes are held.
    #[tactic(auto, using(crate::proofs::Fronts::read_front))]
    pub fn read(&self) -> Option<Call>
        ensures { (line : List ℕ) → held self.now ≡ take 161 line → option_map call_of result ≡ read_line_of line }
    {
        read_line(self.as_slice())
    }
}
