ghost use Rattle.std.specs.Prelude.{◌≡◌, length, Ok, nat_le};
ghost use Rattle.reserved.specs.Held.{held};
ghost use Rattle.flow.specs.Outcomes.{unless};
ghost use Rattle.table.specs.Vetting.{when};
ghost use Rattle.plan.specs.Journal.{full};

use crate::reversal::Reversal;
use reserved::Reserved;
use table::{PlanFault, PlanRule};

// The changes that undo can strike, at most 16, the newest last.
pub(crate) type ChangeList = Reserved<Reversal, 16>;

// Whether one more change can be listed; where not, the flow is named, if there is one.
pub(crate) fn check_room(changes: &ChangeList, flow: Option<u16>) -> Result<(), PlanFault>
    ensures { result ≡ unless (when (nat_le 16 (length (held changes.now))) (full flow)) (Ok tt) }
{
    if changes.is_full() {
        return Err(PlanFault {
            flow,
            rule: PlanRule::Changes,
        });
    }
    Ok(())
}
