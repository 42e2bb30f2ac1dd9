ghost use Rattle.std.specs.Prelude.{◌≡◌, ◌≤◌, true, map};
ghost use Rattle.reserved.specs.Held.{held};
ghost use Rattle.frame.specs.Legs.{leg_spec, all_due_by, hop_total};
ghost use Rattle.frame.specs.Visits.{visit_table, visit_starts};

use crate::memory::FrameMemory;

// One frame: its legs, at most 2,048, in the memory that is kept for them, its slots, and the number of channels. The last two
// are plain numbers with their bounds as invariants: each use reads them as numbers.
pub struct Frame {
    pub(crate) memory: FrameMemory,
    pub(crate) slots: u16,
    pub(crate) channels: u8,
    ghost some: { 1 ≤ slots },
    ghost short: { slots ≤ 1024 },
    ghost tuned: { 1 ≤ channels },
    ghost bands: { channels ≤ 15 },
    ghost timely: { all_due_by slots (map leg_spec (held memory.legs)) ≡ true },
    ghost light: { hop_total (map leg_spec (held memory.legs)) ≤ 2048 },
    ghost filed: { held memory.visits ≡ visit_table (map leg_spec (held memory.legs)) },
    ghost parted: { held memory.starts ≡ visit_starts (map leg_spec (held memory.legs)) },
}
