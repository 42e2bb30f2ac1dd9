// The first rule that the bytes of a flow's routes break, and where. Routes and positions count from 1.
#[derive(Clone, Copy, Debug, PartialEq, Eq)]
pub enum RouteFault {
    // no route, a fourth route, a device count outside 2 to 9, or bytes that end inside the route
    Shape { route: u8 },
    // a device above 100
    Device { route: u8, position: u8 },
    // a device that stands earlier in its route
    Repeat { route: u8, position: u8 },
    // a route without the gateway
    Gateway { route: u8 },
    // a first or last device that is not route 1's
    Ends { route: u8, position: u8 },
}
