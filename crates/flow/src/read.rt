ghost use Rattle.std.specs.Prelude.{◌≡◌, ◌≤◌, length, if◌then◌else◌, Some, None, Ok};
ghost use Rattle.std.specs.Option.{option_map};
ghost use Rattle.flow.specs.Outcomes.{unless, given};
ghost use Rattle.flow.specs.Reading.{shaped, front as fronted, route_fault, read_route_of};
ghost use Rattle.flow.specs.Views.{devices_in};

use crate::fault::RouteFault;
use crate::route::Route;
use crate::scan::{first_repeat, first_unknown, has_gateway};
use byte_list::ByteList;

// The devices of the route at the front of the bytes, if a whole one of 2 to 9 devices stands there.
fn front(bytes: &[u8]) -> Option<&[u8]>
    ensures { option_map (λ x. x.now) result ≡ (if shaped bytes.now then Some (fronted bytes.now) else None) }
{
    let (count, rest) = bytes.split_first()?;
    let devices = rest.get(..*count as usize)?;
    (2..=9).contains(count).then_some(devices)
}

// The rules of one route's devices, in their order.
fn check(devices: &[u8], route: u8) -> Result<(), RouteFault>
    requires { length devices.now ≤ 9 }
    ensures { result ≡ unless (route_fault route devices.now) (Ok tt) }
{
    if let Some(i) = first_unknown(devices) {
        return Err(RouteFault::Device {
            route,
            position: i as u8 + 1,
        });
    }
    if let Some(later) = first_repeat(devices) {
        return Err(RouteFault::Repeat {
            route,
            position: later as u8 + 1,
        });
    }
    if !has_gateway(devices) {
        return Err(RouteFault::Gateway { route });
    }
    Ok(())
}

impl Route {
    // The route at the front of the bytes, which is the flow's route of that number.
    pub(crate) fn read(bytes: &[u8], route: u8) -> Result<Route, RouteFault>
        ensures { given devices_in result ≡ read_route_of route bytes.now }
    {
        let devices = front(bytes).ok_or(RouteFault::Shape { route })?;
        check(devices, route)?;
        Ok(Route {
            devices: ByteList::from_slice(devices),
        })
    }
}
