ghost use Rattle.std.specs.Prelude.{◌≡◌, ◌<◌, ◌≤◌, true, false, [], map, length, IfOk};
ghost use Rattle.flow.specs.Flows.{flow_spec};
ghost use Rattle.table.specs.Force.{in_force, enter, leave};
ghost use Rattle.table.specs.Frame.{frame, transmissions};
ghost use Rattle.table.specs.Tables.{flows_in};

use crate::table::FlowTable;
use flow::Flow;
use reserved::Reserved;
use std::alloc::{AllocError, Global};

impl FlowTable {
    // A table without flows, with memory for 32.
    pub fn new(heap: Global) -> Result<FlowTable, AllocError>
        ensures { IfOk result (λ t. flows_in t ≡ []) }
    {
        let flows = Reserved::new(heap)?;
        Ok(FlowTable { flows })
    }

    // The flows in force, in rising order of their numbers.
    pub fn as_slice(&self) -> &[Flow]
        ensures value { map flow_spec result.now ≡ flows_in self.now }
        ensures len { length result.now ≡ length (flows_in self.now) }
        ensures bound { length result.now ≤ 32 }
    {
        self.flows.as_slice()
    }

    // Whether a flow of that number is in force.
    pub fn holds(&self, number: u16) -> bool
        ensures { result ≡ in_force number (flows_in self.now) }
    {
        self.search(number).is_ok()
    }

    // Puts a flow at its place. It is new, there is room for it, and with it the flows fit one frame.
    pub fn insert(&mut self, flow: Flow)
        requires new { in_force flow.number (flows_in self.old) ≡ false }
        requires room { length (flows_in self.old) < 32 }
        requires short { frame (enter (flow_spec flow) (flows_in self.old)) ≤ 1024 }
        requires light { transmissions (enter (flow_spec flow) (flows_in self.old)) ≤ 2048 }
        ensures { flows_in self.new ≡ enter (flow_spec flow) (flows_in self.old) }
    {
        let i = self.search(flow.number).unwrap_err();
        self.flows.insert(i, flow);
    }

    // Takes out the flow of that number, which is in force. Put back, it stands where it stood.
    pub fn remove(&mut self, number: u16) -> Flow
        requires { in_force number (flows_in self.old) ≡ true }
        ensures named { result.number ≡ number }
        ensures after { flows_in self.new ≡ leave number (flows_in self.old) }
        ensures back { enter (flow_spec result) (leave number (flows_in self.old)) ≡ flows_in self.old }
    {
        let i = self.search(number).unwrap();
        self.flows.remove(i)
    }
}
