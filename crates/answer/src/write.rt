ghost use Rattle.std.specs.Prelude.{◌≡◌, ◌≤◌, length, decimal};
ghost use Rattle.answer.specs.Bytes.{answer_bytes};
ghost use Rattle.answer.specs.Put.{put, fit_length, fitted};

use crate::page::{LONGEST, Page};
use crate::refusal::Refusal;

// Writes the answer to the line of that number at the front of `out` and gives its length;
// None, and `out` as it was, where it does not fit.
pub fn write_answer(line: u32, answer: Result<(), Refusal>, out: &mut [u8]) -> Option<usize>
    ensures gives { result ≡ fit_length (answer_bytes line answer) out.old }
    ensures wrote { out.new ≡ fitted (answer_bytes line answer) out.old }
{
    if out.len() >= LONGEST {
        return Some(print(line, answer, out));
    }
    // less memory than for the longest answer: measured first
    let size = print(line, answer, &mut []);
    // no `then`: of what its closure wrote nothing would be known
    if size <= out.len() {
        Some(print(line, answer, out))
    } else {
        None
    }
}

// Writes the answer at the front of `out`, where it fits, and gives its length.
fn print(line: u32, answer: Result<(), Refusal>, out: &mut [u8]) -> usize
    ensures length { result ≡ length (answer_bytes line answer) }
    ensures few { result ≤ LONGEST }
    ensures wrote { length (answer_bytes line answer) ≤ length out.old → out.new ≡ put out.old 0 (answer_bytes line answer) }
{
    let mut page = Page::new(out);
    page.answer(line, answer);
    page.end
}
