ghost use Rattle.std.specs.Prelude.{◌≡◌, ◌≤◌, length, IfOk};
ghost use Rattle.answer.specs.Put.{fitted};
ghost use Rattle.console.specs.Refusals.{reply_bytes, length_of, line_of};

use crate::fault::{ConsoleFault, ConsoleRule, Granted};
use answer::write_answer;

// Writes the bytes of a reply at the front of `out` and gives their number. Where they do not fit, it refuses, and
// `out` stays as it was.
pub fn write_reply(
    reply: Result<Granted, ConsoleFault>,
    out: &mut [u8],
) -> Result<usize, ConsoleFault>
    ensures bound { IfOk result (λ n. n ≤ length out.old) }
    ensures gives { result ≡ length_of (line_of reply) (reply_bytes reply) out.old }
    ensures wrote { out.new ≡ fitted (reply_bytes reply) out.old }
{
    let (line, answer) = match reply {
        Ok(granted) => (granted.line, Ok(())),
        Err(fault) => (fault.line, Err(fault.rule.into())),
    };
    write_answer(line, answer, out).ok_or(ConsoleRule::Memory.at_line(line))
}
