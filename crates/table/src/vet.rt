ghost use Rattle.std.specs.Prelude.{◌≡◌, Ok};
ghost use Rattle.flow.specs.Flows.{flow_spec, routes_in};
ghost use Rattle.flow.specs.Outcomes.{unless, given};
ghost use Rattle.flow.specs.Reading.{read_routes_of};
ghost use Rattle.table.specs.Force.{enter};
ghost use Rattle.table.specs.Tables.{flows_in};
ghost use Rattle.table.specs.Vetting.{result_at_flow, number_fault, place_fault, retire_fault, time_fault, frame_fault, vetted};

use crate::fault::{PlanFault, PlanRule};
use crate::frame::transmissions_by;
use crate::request::FlowRequest;
use crate::table::FlowTable;
use flow::{Flow, Routes};

// The most slots that a frame may have.
const LONGEST: u32 = 1024;

// The most transmissions that a frame may have.
const HEAVIEST: u32 = 2048;

impl FlowTable {
    // Whether a flow of that number may enter.
    fn check_place(&self, number: u16) -> Result<(), PlanFault>
        ensures { result ≡ unless (place_fault number (flows_in self.now)) (Ok tt) }
    {
        check_number(number)?;
        if self.holds(number) {
            return Err(PlanRule::InForce.at_flow(number));
        }
        if self.flows.is_full() {
            return Err(PlanRule::Full.at_flow(number));
        }
        Ok(())
    }

    // Whether the flow of that number can be retired.
    pub fn check_retire(&self, number: u16) -> Result<(), PlanFault>
        ensures { result ≡ unless (retire_fault number (flows_in self.now)) (Ok tt) }
    {
        check_number(number)?;
        if !self.holds(number) {
            return Err(PlanRule::NotInForce.at_flow(number));
        }
        Ok(())
    }

    // Whether the flows fit one frame together with a new one.
    fn check_frame(&self, flow: &Flow) -> Result<(), PlanFault>
        ensures { result ≡ unless (frame_fault flow.now.number
            (enter (flow_spec flow.now) (flows_in self.now))) (Ok tt) }
    {
        let slots = self.frame_with(flow);
        if slots > LONGEST {
            return Err(PlanRule::Frame.at_flow(flow.number));
        }
        let load = self.transmissions_in(slots) + transmissions_by(flow, slots);
        if load > HEAVIEST {
            return Err(PlanRule::Transmissions.at_flow(flow.number));
        }
        Ok(())
    }

    // The flow that may enter, or the first rule that keeps it out.
    pub fn vet(&self, request: FlowRequest<'_>) -> Result<Flow, PlanFault>
        ensures { given flow_spec result ≡ vetted request.entry.number request.entry.period request.entry.deadline
            request.entry.routes.now (flows_in self.now) }
    {
        self.check_place(request.number)?;
        request.check_times()?;
        let routes = request.read_routes()?;
        let flow = Flow {
            number: request.number,
            period: request.period,
            deadline: request.deadline,
            routes,
        };
        self.check_frame(&flow)?;
        Ok(flow)
    }
}

impl FlowRequest<'_> {
    // Whether period and deadline are in range.
    fn check_times(&self) -> Result<(), PlanFault>
        ensures { result ≡ unless (time_fault self.now.number self.now.period self.now.deadline) (Ok tt) }
    {
        if !(1..=1024).contains(&self.period) {
            return Err(PlanRule::Period.at_flow(self.number));
        }
        if !(1..=self.period).contains(&self.deadline) {
            return Err(PlanRule::Deadline.at_flow(self.number));
        }
        Ok(())
    }

    // The routes in the bytes. A fault in a route is one of the flow that is asked for.
    fn read_routes(&self) -> Result<Routes, PlanFault>
        ensures { given routes_in result ≡ result_at_flow self.now.number (read_routes_of self.now.routes.now) }
    {
        let number = self.number;
        Routes::read(self.routes).map_err(|fault| PlanRule::Route(fault).at_flow(number))
    }
}

// Whether a flow can have that number.
fn check_number(number: u16) -> Result<(), PlanFault>
    ensures { result ≡ unless (number_fault number) (Ok tt) }
{
    if !(1..=999).contains(&number) {
        return Err(PlanRule::Number.at_flow(number));
    }
    Ok(())
}
