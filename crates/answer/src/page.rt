ghost use Rattle.std.specs.Prelude.{◌≡◌, ◌+◌, ◌^◌, ◌<◌, ◌≤◌, length, decimal};
ghost use Rattle.answer.specs.Bytes.{spaced, refusal_bytes, answer_bytes};
ghost use Rattle.answer.specs.Page.{Grows};

use crate::refusal::Refusal;

// As many bytes as an answer has at most: a line number of 10 digits, ` refused`, a space and 3, 5, 3 and 3 digits, and the end
// of the line.
pub(crate) const LONGEST: usize = 37;

// Lent memory that is written from the front on. Text that no longer fits is only counted, so that an answer of any length
// can be measured first.
// Numbers are printed here and not by `write!`: tried, but it promises its bytes only with an `Ok`, and never promises `Ok`.
#[derive(Drop)]
pub(crate) struct Page<'a> {
    pub(crate) memory: &'a mut [u8],
    pub(crate) end: usize,
}

impl<'a> Page<'a> {
    // A page with nothing on it.
    pub(crate) fn new(memory: &'a mut [u8]) -> Page<'a>
        ensures same_reference { result.memory.ghost_name ≡ memory.entry.ghost_name }
        ensures memory { result.memory.now ≡ memory.old }
        ensures end { result.end ≡ 0 }
    {
        Page { memory, end: 0 }
    }

    // The text, next.
    fn text(&mut self, text: &[u8])
        requires { self.old.end + length text.now < 2 ^ 64 }
        ensures { Grows self.old self.new text.now }
    {
        let end = self.end + text.len();
        if end <= self.memory.len() {
            self.memory[self.end..end].copy_from_slice(text);
        }
        self.end = end;
    }

    // The number in decimal, next.
    fn number(&mut self, n: u32)
        requires { self.old.end < 2 ^ 32 }
        ensures grows { Grows self.old self.new (decimal n) }
        ensures few { self.new.end ≤ self.old.end + 10 }
    {
        if n >= 10 {
            self.number(n / 10);
        }
        self.text(&[b'0' + (n % 10) as u8]);
    }

    // The number behind a space, next.
    fn named(&mut self, n: u32)
        requires { self.old.end < 2 ^ 31 }
        ensures grows { Grows self.old self.new (spaced n) }
        ensures few { self.new.end ≤ self.old.end + 11 }
    {
        self.text(b" ");
        self.number(n);
    }

    // What a refusal says, next.
    fn refusal(&mut self, refusal: Refusal)
        requires { self.old.end < 2 ^ 30 }
        ensures grows { Grows self.old self.new (refusal_bytes refusal) }
        ensures few { self.new.end ≤ self.old.end + 18 }
    {
        self.named(u32::from(refusal.number));
        self.named(u32::from(refusal.flow));
        self.named(u32::from(refusal.route));
        self.named(u32::from(refusal.position));
    }

    // The answer to the line of that number, next.
    pub(crate) fn answer(&mut self, line: u32, answer: Result<(), Refusal>)
        requires { self.old.end ≡ 0 }
        ensures grows { Grows self.old self.new (answer_bytes line answer) }
        ensures few { self.new.end ≤ LONGEST }
    {
        self.number(line);
        match answer {
            Ok(()) => self.text(b" ok\n"),
            Err(refusal) => {
                self.text(b" refused");
                self.refusal(refusal);
                self.text(b"\n");
            }
        }
    }
}
