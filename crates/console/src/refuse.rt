ghost use Rattle.std.specs.Prelude.{◌≡◌, unwrap_or};
ghost use Rattle.console.specs.Book.{fault};
ghost use Rattle.console.specs.Refusals.{route_refusal_of, plan_refusal_of, refusal};

use crate::fault::{ConsoleFault, ConsoleRule};
use answer::Refusal;
use flow::RouteFault;
use table::{PlanFault, PlanRule};

// What a fault in a route of that flow says. No `From`, here and below: neither type is of this crate. Numbers by a `match`: only
// the console numbers the kinds, and 0 stands for what a refusal does not name.
fn route_refusal(flow: u16, fault: RouteFault) -> Refusal
    ensures { result ≡ route_refusal_of flow fault }
{
    let (number, route, position) = match fault {
        RouteFault::Shape { route } => (7, route, 0),
        RouteFault::Device { route, position } => (8, route, position),
        RouteFault::Repeat { route, position } => (9, route, position),
        RouteFault::Gateway { route } => (10, route, 0),
        RouteFault::Ends { route, position } => (11, route, position),
    };
    Refusal {
        number,
        flow,
        route,
        position,
    }
}

// What a fault of the plan says; a fault that names no flow is printed with flow 0.
fn plan_refusal(fault: PlanFault) -> Refusal
    ensures { result ≡ plan_refusal_of (unwrap_or fault.flow 0) fault.rule }
{
    let flow = fault.flow.unwrap_or(0);
    let number = match fault.rule {
        PlanRule::Route(route) => return route_refusal(flow, route),
        PlanRule::Number => 1,
        PlanRule::InForce => 2,
        PlanRule::NotInForce => 3,
        PlanRule::Full => 4,
        PlanRule::Period => 5,
        PlanRule::Deadline => 6,
        PlanRule::Frame => 12,
        PlanRule::Transmissions => 13,
        PlanRule::Channels => 14,
        PlanRule::Changes => 15,
        PlanRule::Nothing => 16,
    };
    Refusal {
        number,
        flow,
        ..Refusal::default()
    }
}

impl ConsoleRule {
    // The rule, broken by that line.
    pub fn at_line(self, line: u32) -> ConsoleFault
        ensures { result ≡ fault line self }
    {
        ConsoleFault { line, rule: self }
    }
}

// The refusal's number, and the flow, route and position that it names.
impl From<ConsoleRule> for Refusal {
    ghost from_gives = { λ rule r. r ≡ refusal rule };

    fn from(rule: ConsoleRule) -> Refusal {
        match rule {
            ConsoleRule::Plan(fault) => plan_refusal(fault),
            ConsoleRule::Memory => Refusal {
                number: 21,
                position: 6,
                ..Refusal::default()
            },
            ConsoleRule::Unreadable => Refusal {
                number: 22,
                ..Refusal::default()
            },
        }
    }
}
