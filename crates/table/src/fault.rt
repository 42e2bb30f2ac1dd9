ghost use Rattle.std.specs.Prelude.{◌≡◌};
ghost use Rattle.table.specs.Vetting.{at, at_no_flow};

use flow::RouteFault;

// A rule of the plan that a call breaks.
#[derive(Clone, Copy, Debug, PartialEq, Eq)]
pub enum PlanRule {
    // the flow's number is 0 or above 999
    Number,
    // a flow of that number is in force
    InForce,
    // no flow of that number is in force
    NotInForce,
    // 32 flows are in force
    Full,
    // the period is 0 or above 1,024
    Period,
    // the deadline is 0 or above the period
    Deadline,
    // a route breaks a rule of its own
    Route(RouteFault),
    // the frame would pass 1,024 slots
    Frame,
    // the transmissions in the frame would pass 2,048
    Transmissions,
    // the channel map is 0 or has bit 15
    Channels,
    // 16 changes are listed
    Changes,
    // no change is listed
    Nothing,
}

impl PlanRule {
    // The rule, broken by that flow.
    pub fn at_flow(self, flow: u16) -> PlanFault
        ensures { result ≡ at flow self }
    {
        PlanFault {
            flow: Some(flow),
            rule: self,
        }
    }
}

// The first rule that a call breaks, and the number of the flow that it names, if it names one.
#[derive(Clone, Copy, Debug, PartialEq, Eq)]
pub struct PlanFault {
    pub flow: Option<u16>,
    pub rule: PlanRule,
}

impl From<PlanRule> for PlanFault {
    ghost from_gives = { λ rule fault. fault ≡ at_no_flow rule };

    fn from(rule: PlanRule) -> PlanFault {
        PlanFault { flow: None, rule }
    }
}
