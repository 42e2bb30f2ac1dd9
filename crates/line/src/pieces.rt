ghost use Rattle.std.specs.Prelude.{◌≡◌, ◌+◌, ◌≤◌, ◌==◌, length, position};
ghost use Rattle.std.specs.Iterator.{YieldsFirstRef, item_count};
ghost use Rattle.line.specs.Grammar.{split_at, is_empty};
ghost use Rattle.line.specs.Left.{left};

// The pieces of a text that are still to be read; between two pieces stands one separator. Not the library's split, whose
// type would carry a closure through every function that reads fields.
#[derive(Drop)]
pub(crate) struct Pieces<'a> {
    // None once the last piece was read
    rest: Option<&'a [u8]>,
    separator: u8,
}

impl<'a> Pieces<'a> {
    // All pieces of a text are left.
    pub(crate) fn new(text: &'a [u8], separator: u8) -> Pieces<'a>
        ensures { left result ≡ split_at separator text.now }
    {
        Pieces {
            rest: Some(text),
            separator,
        }
    }

    // Whether all pieces were read.
    #[tactic(auto, using(crate::proofs::Splits::empty_left))]
    pub(crate) fn is_empty(&self) -> bool
        ensures { result ≡ is_empty (left self.now) }
    {
        self.rest.is_none()
    }
}

impl<'a> Iterator for Pieces<'a> {
    type Item = &'a [u8];

    ghost next_gives = { YieldsFirstRef left };

    ghost remaining = { item_count left };

    #[tactic(auto, using(crate::proofs::Splits::steps))]
    fn next(&mut self) -> Option<&'a [u8]> {
        let rest = self.rest?;
        match first_at(rest, self.separator) {
            Some(end) => {
                self.rest = Some(&rest[end + 1..]);
                Some(&rest[..end])
            }
            None => {
                self.rest = None;
                Some(rest)
            }
        }
    }
}

// The index of the first separator.
fn first_at(text: &[u8], separator: u8) -> Option<usize>
    ensures { result ≡ position (λ x. x == separator) text.now }
{
    text.iter().position(|byte| *byte == separator)
}

// How many pieces a text has: one more than separators.
#[tactic(auto, using(crate::proofs::Splits::pieces_by_separators))]
pub(crate) fn count(text: &[u8], separator: u8) -> usize
    ensures pieces { result ≡ length (split_at separator text.now) }
    ensures within { result ≤ length text.now + 1 }
{
    let separators: usize = text
        .iter()
        .map(|byte| usize::from(*byte == separator))
        .sum();
    separators + 1
}
