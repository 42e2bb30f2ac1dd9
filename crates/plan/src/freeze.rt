ghost use Rattle.std.specs.Prelude.{◌≡◌};
ghost use Rattle.plan.specs.Journal.{Journal};
ghost use Rattle.plan.specs.Plans.{After};

use crate::plan::{FrozenPlan, OpenPlan, Plan};
use legs::frame_of;

// The fields one by one, here and in thaw: they go into a plan of another type.
impl OpenPlan {
    // The same plan, frozen, with its frame: after the same journal. It allocates nothing.
    pub fn freeze(self) -> FrozenPlan
        ensures same { (result.table ≡ self.table) × (result.map ≡ self.map) × (result.changes ≡ self.changes) }
        ensures law { (j : Journal) → After j self → After j result }
    {
        let Plan {
            table,
            map,
            changes,
            phase: memory,
        } = self;
        let phase = frame_of(&table, map.count() as u8, memory);
        Plan {
            table,
            map,
            changes,
            phase,
        }
    }
}

impl FrozenPlan {
    // The same plan, open again: after the same journal. The frame's memory is kept for the next freeze.
    pub fn thaw(self) -> OpenPlan
        ensures same { (result.table ≡ self.table) × (result.map ≡ self.map) × (result.changes ≡ self.changes) }
        ensures memory { result.phase ≡ self.phase.memory }
        ensures law { (j : Journal) → After j self → After j result }
    {
        let Plan {
            table,
            map,
            changes,
            phase: frame,
        } = self;
        let phase = frame.into_memory();
        Plan {
            table,
            map,
            changes,
            phase,
        }
    }
}
