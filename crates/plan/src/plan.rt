ghost use Rattle.std.specs.Prelude.{◌≡◌, length};
ghost use Rattle.reserved.specs.Held.{held};
ghost use Rattle.table.specs.Tables.{flows_in};
ghost use Rattle.plan.specs.Follows.{Sound};

use crate::changes::ChangeList;
use crate::channels::ChannelMap;
use crate::phase::Phase;
use frame::{Frame, FrameMemory};
use table::FlowTable;

// A plan, with what it holds for its frame. It stands as some journal of granted changes gives it, and what it holds for
// its frame fits its flows over its channels.
pub struct Plan<P: Phase> {
    pub(crate) table: FlowTable,
    pub(crate) map: ChannelMap,
    pub(crate) changes: ChangeList,
    pub(crate) phase: P,
    ghost sound: { Sound (flows_in table) map (held changes) },
    ghost suited: { ∥ P.Suits phase (flows_in table) map.bits ∥₁ },
}

// A plan that takes changes.
pub type OpenPlan = Plan<FrameMemory>;

// A plan that takes no changes until it is thawed, with its frame.
pub type FrozenPlan = Plan<Frame>;

impl<P: Phase> Plan<P> {
    ghost use Rattle.plan.specs.Journal.{Journal, standing};
    ghost use Rattle.plan.specs.Plans.{After};

    // The flows in force, with their frame and its transmissions.
    pub fn table(&self) -> &FlowTable
        ensures value { result.now ≡ self.now.table }
        ensures law { (j : Journal) → After j self.now → flows_in result.now ≡ (standing j).flows }
    {
        &self.table
    }

    // The channel map.
    pub fn channels(&self) -> ChannelMap
        ensures value { result ≡ self.now.map }
        ensures law { (j : Journal) → After j self.now → result.bits ≡ (standing j).channels }
    {
        self.map
    }

    // The number of listed changes.
    pub fn listed(&self) -> usize
        ensures { (j : Journal) → After j self.now → result ≡ length j.listed }
    {
        self.changes.len()
    }
}
