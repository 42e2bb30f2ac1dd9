ghost use Rattle.plan.specs.Plans.{Obeys, Spares};
ghost use Rattle.line.specs.Held.{call_of};

use line::Call;
use plan::OpenPlan;
use table::{FlowRequest, PlanFault};

// Has the plan carry out a call. No `From` makes what is asked of the plan out of it: neither type is of this crate.
pub(crate) fn obey(plan: &mut OpenPlan, call: Call) -> Result<(), PlanFault>
    ensures kept { Spares result plan.old plan.new }
    ensures law { Obeys (call_of call) plan.old plan.new result }
{
    match call {
        Call::Admit {
            flow,
            period,
            deadline,
            routes,
        } => plan.admit(FlowRequest {
            number: flow,
            period,
            deadline,
            routes: routes.as_slice(),
        }),
        Call::Retire { flow } => plan.retire(flow),
        Call::Map { channels } => plan.map(channels),
        Call::Undo => plan.undo(),
        Call::Settle => {
            plan.settle();
            Ok(())
        }
    }
}
