ghost use Rattle.std.specs.Prelude.{◌≡◌, ◌==◌, not, IfOk};
ghost use Rattle.plan.specs.Plans.{After};
ghost use Rattle.console.specs.Book.{Book, opened, received, held_within, reply, last_reply, last_journal, line_reply, line_entered};
ghost use Rattle.console.specs.Consoles.{Keeps};

use crate::fault::{ConsoleFault, ConsoleRule, Granted};
use crate::obey::obey;
use crate::state::Console;
use line::LineBuffer;
use plan::OpenPlan;
use std::alloc::{AllocError, Global};

// The byte that ends a line.
const NEWLINE: u8 = b'\n';

impl Console {
    // A console with a new plan.
    pub fn new(heap: Global) -> Result<Console, AllocError>
        ensures { IfOk result (Keeps opened) }
    {
        Ok(Console {
            plan: OpenPlan::new(heap)?,
            received: LineBuffer::new(),
            lines: 0,
        })
    }

    // Takes one more byte. A newline ends the line, and the reply to it comes with the console.
    // The console goes by value, here and in `finish`, as a plan does where it is frozen.
    pub fn receive(mut self, byte: u8) -> (Console, Option<Result<Granted, ConsoleFault>>)
        ensures { (k : Book) → Keeps k self → Keeps (received byte k) result.0 × (result.1 ≡ reply byte k) }
    {
        if self.hold(byte) {
            return (self, None);
        }
        let reply = self.answer_line();
        (self, Some(reply))
    }

    // Takes one more byte within a line, and says whether it did: it leaves a newline to `receive`. The console stays where it
    // is, since to move it costs more than to take a byte.
    pub fn hold(&mut self, byte: u8) -> bool
        ensures taken { result ≡ not (byte == 10) }
        ensures held { (k : Book) → Keeps k self.old → Keeps (held_within byte k) self.new }
    {
        if byte == NEWLINE {
            return false;
        }
        self.received.push(byte);
        true
    }

    // The end of the input. A last line without a newline is answered too, unless it is empty.
    pub fn finish(mut self) -> (OpenPlan, Option<Result<Granted, ConsoleFault>>)
        ensures { (k : Book) → Keeps k self → After (last_journal k) result.0 × (result.1 ≡ last_reply k) }
    {
        if self.received.as_slice().is_empty() {
            return (self.into_plan(), None);
        }
        let reply = self.answer_line();
        (self.into_plan(), Some(reply))
    }

    // The plan, without what was received.
    fn into_plan(self) -> OpenPlan
        ensures { result ≡ self.plan }
    {
        let Console {
            plan,
            received: _,
            lines: _,
        } = self;
        plan
    }

    // Answers the line that was received, and begins the next one.
    fn answer_line(&mut self) -> Result<Granted, ConsoleFault>
        ensures { (k : Book) → Keeps k self.old → Keeps (line_entered k) self.new × (result ≡ line_reply k) }
    {
        let call = self.received.read();
        let line = self.lines.saturating_add(1);
        self.received.clear();
        self.lines = line;
        let call = call.ok_or(ConsoleRule::Unreadable.at_line(line))?;
        obey(&mut self.plan, call).map_err(|fault| ConsoleRule::from(fault).at_line(line))?;
        Ok(Granted { line })
    }
}
