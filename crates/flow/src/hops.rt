ghost use Rattle.std.specs.Prelude.{◌≡◌, ◌≤◌, map, length};
ghost use Rattle.flow.specs.Views.{devices_in};
ghost use Rattle.flow.specs.Flows.{routes_in, hops_of};

use crate::route::Route;
use crate::routes::Routes;

impl Routes {
    // The routes, in order.
    pub fn as_slice(&self) -> &[Route]
        ensures value { map devices_in result.now ≡ routes_in self.now }
        ensures len { length result.now ≡ self.now.count }
        ensures few { length result.now ≤ 3 }
    {
        &self.list[0..self.count as usize]
    }

    // The hops of all routes together: a route of n devices has n - 1.
    #[tactic(auto, using(crate::proofs::Totals::few_hops))]
    pub fn hops(&self) -> u32
        ensures value { result ≡ hops_of (routes_in self.now) }
        ensures bound { result ≤ 24 }
    {
        hops_along(self.as_slice())
    }
}

// The hops along a few routes.
fn hops_along(routes: &[Route]) -> u32
    requires { length routes.now ≤ 3 }
    ensures { result ≡ hops_of (map devices_in routes.now) }
{
    routes
        .iter()
        .map(|route| route.as_slice().len() as u32 - 1)
        .sum()
}
