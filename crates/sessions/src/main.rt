// Runs the sessions that its arguments name, each on a new plan, and prints what the planner answers.
#![tactic(auto)]

use serve::serve;
use std::io::Cursor;
use std::{env, fs, io};

// A line of a million bytes, and a line after it.
fn long_line(rt: &HostRuntime) -> io::Result<()> {
    let mut bytes = vec![in rt.alloc(); b'A'; 1000000]?;
    bytes.extend_from_slice(b"\nC 1\n")?;
    serve(rt.alloc(), &mut Cursor::new(bytes), &mut rt.stdout())
}

fn main(rt: HostRuntime) -> io::Result<()> {
    for name in env::args(&rt)?.skip(1) {
        println!(rt; "session {name}")?;
        let mut file = fs::open(&rt, name.as_str())?;
        serve(rt.alloc(), &mut file, &mut rt.stdout())?;
    }
    println!(rt; "session of a long line")?;
    long_line(&rt)
}
