ghost use Rattle.std.specs.Prelude.{◌≡◌, ◌*◌, ◌/◌, ◌≤◌};
ghost use Rattle.flow.specs.Flows.{flow_spec, hops_of, routes_in};
ghost use Rattle.table.specs.Force.{enter};
ghost use Rattle.table.specs.Frame.{frame, transmissions, transmissions_in, LeastCommonMultiple, LeastMultiple};
ghost use Rattle.table.specs.Tables.{flows_in};

use crate::table::FlowTable;
use flow::Flow;

// The least common multiple of two numbers of slots: the first multiple of `a` that `b` divides.
fn lcm(a: u32, b: u32) -> u32
    requires some { (1 ≤ a) × (1 ≤ b) }
    requires few { (a ≤ 1024) × (b ≤ 1024) }
    ensures { LeastMultiple a b result }
{
    // not `(a..).step_by(a).find(..)`: that goes on without end, and would need a bound and an `unwrap`
    let mut m = a;
    while m % b != 0 {
        m += a;
    }
    m
}

// The transmissions of one flow: each packet crosses every hop of every route.
pub(crate) fn transmissions_by(flow: &Flow, slots: u32) -> u32
    requires { slots ≤ 1024 }
    ensures value { result ≡ slots / flow.now.period * hops_of (routes_in flow.now.routes) }
    ensures bound { result ≤ 24576 }
{
    slots / flow.period as u32 * flow.routes.hops()
}

impl FlowTable {
    // The slots of the frame: the least common multiple of the periods, 1 without flows.
    pub fn frame(&self) -> u32
        ensures value { result ≡ frame (flows_in self.now) }
        ensures least { LeastCommonMultiple result (flows_in self.now) }
        ensures bound { result ≤ 1024 }
    {
        // a loop over the flows: a form that the project fixes for T
        let mut slots = 1;
        for flow in self.as_slice() {
            slots = lcm(slots, flow.period as u32);
        }
        slots
    }

    // The slots of the frame with one more flow.
    pub(crate) fn frame_with(&self, flow: &Flow) -> u32
        ensures { result ≡ frame (enter (flow_spec flow.now) (flows_in self.now)) }
    {
        lcm(self.frame(), flow.period as u32)
    }

    // The transmissions of the flows in `slots` slots.
    pub(crate) fn transmissions_in(&self, slots: u32) -> u32
        requires { slots ≤ 1024 }
        ensures value { result ≡ transmissions_in slots (flows_in self.now) }
        ensures bound { result ≤ 786432 }
    {
        // a loop over the flows: a form that the project fixes for Q
        let mut total = 0;
        for flow in self.as_slice() {
            total += transmissions_by(flow, slots);
        }
        total
    }

    // The transmissions in the frame.
    pub fn transmissions(&self) -> u32
        ensures value { result ≡ transmissions (flows_in self.now) }
        ensures bound { result ≤ 2048 }
    {
        self.transmissions_in(self.frame())
    }
}
