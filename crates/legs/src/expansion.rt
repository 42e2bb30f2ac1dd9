ghost use Rattle.std.specs.Prelude.{◌≡◌, ◌+◌, ◌*◌, ◌≤◌, ◌++◌, map, length};
ghost use Rattle.reserved.specs.Held.{held};
ghost use Rattle.flow.specs.Flows.{flow_spec};
ghost use Rattle.table.specs.Frame.{frame};
ghost use Rattle.table.specs.Tables.{flows_in};
ghost use Rattle.frame.specs.Legs.{leg_spec};
ghost use Rattle.legs.specs.Expand.{packet_legs, flow_legs, legs_of};

use crate::leg::leg_of;
use flow::Flow;
use frame::{LEGS, Leg};
use reserved::Reserved;
use table::FlowTable;

// Puts a packet of a flow behind the legs, on each of its routes. There is room.
#[tactic(auto, using(std::proofs::lemmas::Grind::common_steps, crate::proofs::Walks::legs_length))]
fn push_packet(flow: &Flow, packet: u16, legs: &mut Reserved<Leg, LEGS>)
    requires early { flow.now.period * (packet + 1) ≤ 1024 }
    requires room { length (held legs.old) + length (packet_legs (flow_spec flow.now) packet) ≤ LEGS }
    ensures { map leg_spec (held legs.new)
        ≡ map leg_spec (held legs.old) ++ packet_legs (flow_spec flow.now) packet }
{
    for (number, route) in (1..).zip(flow.routes.as_slice()) {
        legs.push(leg_of(flow, packet, number, route));
    }
}

// Puts all packets of a flow in a frame of so many slots behind the legs. There is room.
#[tactic(auto, using(std::proofs::lemmas::Grind::common_steps, crate::proofs::Walks::count_next, crate::proofs::Walks::count_end))]
fn push_flow(flow: &Flow, slots: u16, legs: &mut Reserved<Leg, LEGS>)
    requires short { slots ≤ 1024 }
    requires room { length (held legs.old) + length (flow_legs slots (flow_spec flow.now)) ≤ LEGS }
    ensures { map leg_spec (held legs.new)
        ≡ map leg_spec (held legs.old) ++ flow_legs slots (flow_spec flow.now) }
{
    for packet in 0..slots / flow.period {
        push_packet(flow, packet, legs);
    }
}

// Puts the legs of a table's flows into `legs`, in the place of what was there: in rising order of flow number, packet
// and route.
#[tactic(auto, using(std::proofs::lemmas::Grind::common_steps, crate::proofs::Walks::map_next))]
pub(crate) fn expand(table: &FlowTable, legs: &mut Reserved<Leg, LEGS>)
    ensures { map leg_spec (held legs.new)
        ≡ legs_of (frame (flows_in table.now)) (flows_in table.now) }
{
    let slots = table.frame() as u16;
    legs.clear();
    for flow in table.as_slice() {
        push_flow(flow, slots, legs);
    }
}
