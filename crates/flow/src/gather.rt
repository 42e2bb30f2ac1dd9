ghost use Rattle.std.specs.Prelude.{◌≡◌, ◌+◌, ◌<◌, ◌≤◌, true, [], ◌∷◌, ◌++◌, length, Ok};
ghost use Rattle.flow.specs.Outcomes.{unless, given};
ghost use Rattle.flow.specs.Reading.{ends_fault, read_next, read_routes_of};
ghost use Rattle.flow.specs.Rules.{all_agree};
ghost use Rattle.flow.specs.Spelling.{Meant};
ghost use Rattle.flow.specs.Views.{devices_in};
ghost use Rattle.flow.specs.Flows.{routes_in};

use crate::fault::RouteFault;
use crate::route::Route;
use crate::routes::Routes;

impl Route {
    // The devices, in order.
    pub fn as_slice(&self) -> &[u8]
        ensures value { result.now ≡ devices_in self.now }
        ensures least { 2 ≤ length result.now }
        ensures most { length result.now ≤ 9 }
    {
        self.devices.as_slice()
    }

    // Whether a route has this one's ends; it is the flow's route of that number.
    fn same_ends(&self, other: &Route, route: u8) -> Result<(), RouteFault>
        ensures { result ≡ unless (ends_fault route (devices_in self.now) (devices_in other.now)) (Ok tt) }
    {
        let one = self.as_slice();
        let devices = other.as_slice();
        if one.first() != devices.first() {
            return Err(RouteFault::Ends { route, position: 1 });
        }
        if one.last() != devices.last() {
            return Err(RouteFault::Ends {
                route,
                position: devices.len() as u8,
            });
        }
        Ok(())
    }
}

impl Routes {
    // A first route.
    fn one(route: Route) -> Routes
        ensures count { result.count ≡ 1 }
        ensures value { routes_in result ≡ devices_in route ∷ [] }
    {
        Routes {
            list: [route; 3],
            count: 1,
        }
    }

    // The route at the front of the bytes, with the ends of those that are there.
    fn next(&self, bytes: &[u8]) -> Result<Route, RouteFault>
        ensures { given devices_in result ≡ read_next (routes_in self.now) bytes.now }
    {
        let route = self.count + 1;
        let next = Route::read(bytes, route)?;
        self.list[0].same_ends(&next, route)?;
        Ok(next)
    }

    // One route more.
    fn with(self, route: Route) -> Routes
        requires room { self.count < 3 }
        requires ends { all_agree (routes_in self ++ devices_in route ∷ []) ≡ true }
        ensures count { result.count ≡ self.count + 1 }
        ensures value { routes_in result ≡ routes_in self ++ devices_in route ∷ [] }
    {
        let mut list = self.list;
        list[self.count as usize] = route;
        Routes {
            list,
            count: self.count + 1,
        }
    }

    // The one to three routes in the bytes: for each its number of devices, then the devices.
    pub fn read(bytes: &[u8]) -> Result<Routes, RouteFault>
        ensures value { given routes_in result ≡ read_routes_of bytes.now }
        ensures meant { Meant bytes.now (given routes_in result) }
    {
        Routes::read_all(bytes)
    }

    // The routes one after the other.
    fn read_all(bytes: &[u8]) -> Result<Routes, RouteFault>
        ensures { given routes_in result ≡ read_routes_of bytes.now }
    {
        let first = Route::read(bytes, 1)?;
        let mut routes = Routes::one(first);
        let mut rest = &bytes[first.as_slice().len() + 1..];
        // no chunks: each route takes as many bytes as its own first byte says
        while !rest.is_empty() {
            if routes.count == 3 {
                return Err(RouteFault::Shape { route: 4 });
            }
            let route = routes.next(rest)?;
            rest = &rest[route.as_slice().len() + 1..];
            routes = routes.with(route);
        }
        Ok(routes)
    }
}
