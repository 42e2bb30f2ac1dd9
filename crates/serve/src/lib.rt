// One session: bytes in from a reader, answers out to a writer. What is read and written no contract can say; the work
// is the console's, which is proved.
#![tactic(auto)]

use console::{Console, ConsoleFault, Granted, write_reply};
use std::alloc::Global;
use std::io;
use std::io::{ErrorKind, Read, Write};

// Longer than any answer. This and the next are memory that is lent to a call.
const ANSWER: usize = 64;

const CHUNK: usize = 4096;

// Writes the answer to a line, at once.
fn write<W: Write>(output: &mut W, reply: Result<Granted, ConsoleFault>) -> io::Result<()> {
    let mut room = [0; ANSWER];
    let length = write_reply(reply, &mut room).map_err(|_| ErrorKind::OutOfMemory)?;
    output.write_all(&room[..length])?;
    output.flush()
}

// Hands the bytes to the console, and writes each answer before the next byte is looked at. Here and below the console goes by
// value and comes back beside the result, also beside an error: only its end lets the plan go. A byte within a line is held where
// the console stands.
fn answer_all<W: Write>(
    mut console: Console,
    bytes: &[u8],
    output: &mut W,
) -> (Console, io::Result<()>) {
    for byte in bytes {
        if console.hold(*byte) {
            continue;
        }
        let (next, reply) = console.receive(*byte);
        console = next;
        let result = reply.map_or(Ok(()), |reply| write(output, reply));
        if result.is_err() {
            return (console, result);
        }
    }
    (console, Ok(()))
}

// Answers all lines up to the end of the input.
fn answer_input<R: Read, W: Write>(
    mut console: Console,
    input: &mut R,
    output: &mut W,
) -> (Console, io::Result<()>) {
    let mut chunk = [0; CHUNK];
    // a count, and no loop without end: each loop is proved to end, and so many reads never come
    for _ in 0..u64::MAX {
        // arms and no `?`: the console goes back beside an error, and an interrupted read is asked again
        let length = match input.read(&mut chunk) {
            Ok(0) => return (console, Ok(())),
            Ok(length) => length,
            Err(error) if error.kind() == ErrorKind::Interrupted => continue,
            Err(error) => return (console, Err(error)),
        };
        let (next, result) = answer_all(console, &chunk[..length], output);
        console = next;
        if result.is_err() {
            return (console, result);
        }
    }
    (console, Ok(()))
}

// A session on a new plan: answers each line of the input, the last one also without a newline.
pub fn serve<R: Read, W: Write>(heap: Global, input: &mut R, output: &mut W) -> io::Result<()> {
    let console = Console::new(heap)?;
    let (console, result) = answer_input(console, input, output);
    let (plan, reply) = console.finish();
    drop(plan.into_table());
    result?;
    reply.map_or(Ok(()), |reply| write(output, reply))
}
