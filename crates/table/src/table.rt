ghost use Rattle.std.specs.Prelude.{◌≡◌, ◌≤◌, true, map};
ghost use Rattle.reserved.specs.Held.{held};
ghost use Rattle.flow.specs.Flows.{flow_spec};
ghost use Rattle.table.specs.Force.{rising};
ghost use Rattle.table.specs.Frame.{frame, transmissions};

use flow::Flow;
use reserved::Reserved;

// The flows in force, at most 32, in rising order of their numbers, that fit one frame: at most 1,024 slots and
// 2,048 transmissions.
#[derive(Drop)]
pub struct FlowTable {
    pub(crate) flows: Reserved<Flow, 32>,
    ghost rises: { rising (map flow_spec (held flows)) ≡ true },
    ghost short: { frame (map flow_spec (held flows)) ≤ 1024 },
    ghost light: { transmissions (map flow_spec (held flows)) ≤ 2048 },
}
