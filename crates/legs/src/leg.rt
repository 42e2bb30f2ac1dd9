ghost use Rattle.std.specs.Prelude.{◌≡◌, ◌+◌, ◌*◌, ◌≤◌};
ghost use Rattle.flow.specs.Flows.{flow_spec};
ghost use Rattle.flow.specs.Views.{devices_in};
ghost use Rattle.frame.specs.Legs.{leg_spec};
ghost use Rattle.legs.specs.Expand.{leg_of_packet};

use crate::hops::hops_along;
use flow::{Flow, Route};
use frame::Leg;

// A packet of a flow, from 0 on, on the route of that number. Its period ends by slot 1,024. No `From`: it has four inputs.
pub(crate) fn leg_of(flow: &Flow, packet: u16, number: u8, route: &Route) -> Leg
    requires { flow.now.period * (packet + 1) ≤ 1024 }
    ensures { leg_spec result ≡ leg_of_packet (flow_spec flow.now) packet number (devices_in route.now) }
{
    let release = flow.period * packet + 1;
    Leg {
        flow: flow.number,
        route: number,
        release,
        due: release + flow.deadline - 1,
        hops: hops_along(route),
        count: route.as_slice().len() as u8 - 1,
    }
}
