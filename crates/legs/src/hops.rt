ghost use Rattle.std.specs.Prelude.{◌≡◌, ◌-◌, length, take};
ghost use Rattle.flow.specs.Views.{devices_in};
ghost use Rattle.legs.specs.Expand.{hops_along_route};

use flow::Route;
use frame::Hop;

// The hops of a route, from each device to the next. Places past them mean nothing. No `From`: neither type is of this crate.
#[tactic(auto, using(std::proofs::lemmas::Grind::common_steps, crate::proofs::Walks::hops_of_two, crate::proofs::Walks::hops_of_one))]
pub(crate) fn hops_along(route: &Route) -> [Hop; 8]
    ensures value { take (length (devices_in route.now) - 1) result ≡ hops_along_route (devices_in route.now) }
    ensures len { length result ≡ 8 }
{
    let none = Hop {
        sender: 0,
        receiver: 0,
    };
    let mut hops = [none; 8];
    for (i, &[sender, receiver]) in route.as_slice().array_windows::<2>().enumerate() {
        // by number: of an array that an adapter of `iter_mut` writes nothing is known
        hops[i] = Hop { sender, receiver };
    }
    hops
}
