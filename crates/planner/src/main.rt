// The planner: reads lines from standard input and answers each at once on standard output.
#![tactic(auto)]

use serve::serve;
use std::io;

fn main(rt: HostRuntime) -> io::Result<()> {
    serve(rt.alloc(), &mut rt.stdin(), &mut rt.stdout())
}
