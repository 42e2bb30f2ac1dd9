ghost use Rattle.std.specs.Prelude.{◌≡◌, IfOk, Ok};
ghost use Rattle.calls.specs.Calls.{admit, retire, set_map, undo, settle};
ghost use Rattle.plan.specs.Journal.{blank};
ghost use Rattle.plan.specs.Plans.{After, Obeys, Spares};

use crate::changes::{ChangeList, check_room};
use crate::channels::ChannelMap;
use crate::plan::{OpenPlan, Plan};
use crate::reversal::Reversal;
use frame::FrameMemory;
use std::alloc::{AllocError, Global};
use table::{FlowRequest, FlowTable, PlanFault, PlanRule};

impl OpenPlan {
    // A new plan: no flows, all 15 channels, no change listed. It reserves all the memory that the plan will need.
    pub fn new(heap: Global) -> Result<OpenPlan, AllocError>
        ensures { IfOk result (After blank) }
    {
        let table = FlowTable::new(heap)?;
        let changes = ChangeList::new(heap)?;
        let phase = FrameMemory::new(heap)?;
        Ok(Plan {
            table,
            map: ChannelMap { bits: 32767 },
            changes,
            phase,
        })
    }

    // Adds a flow. Routes: for each route its number of devices, then the devices.
    pub fn admit(&mut self, request: FlowRequest<'_>) -> Result<(), PlanFault>
        ensures kept { Spares result self.old self.new }
        ensures law { Obeys (admit request.entry.number request.entry.period request.entry.deadline
            request.entry.routes.now) self.old self.new result }
    {
        let flow = self.table.vet(request)?;
        check_room(&self.changes, Some(request.number))?;
        self.table.insert(flow);
        self.changes.push(Reversal::Remove(request.number));
        Ok(())
    }

    // Removes the flow of that number.
    pub fn retire(&mut self, number: u16) -> Result<(), PlanFault>
        ensures kept { Spares result self.old self.new }
        ensures law { Obeys (retire number) self.old self.new result }
    {
        self.table.check_retire(number)?;
        check_room(&self.changes, Some(number))?;
        let flow = self.table.remove(number);
        self.changes.push(Reversal::Insert(flow));
        Ok(())
    }

    // Sets the channel map.
    pub fn map(&mut self, channels: u16) -> Result<(), PlanFault>
        ensures kept { Spares result self.old self.new }
        ensures law { Obeys (set_map channels) self.old self.new result }
    {
        let map = ChannelMap::try_from(channels)?;
        check_room(&self.changes, None)?;
        self.changes.push(Reversal::Restore(self.map));
        self.map = map;
        Ok(())
    }

    // Takes the newest listed change back.
    pub fn undo(&mut self) -> Result<(), PlanFault>
        ensures kept { Spares result self.old self.new }
        ensures law { Obeys undo self.old self.new result }
    {
        // looked at first: that a `pop` of nothing leaves the plan as it was, all of it, was tried and did not prove
        let newest = self.changes.last().ok_or(PlanRule::Nothing)?;
        self.changes.pop();
        match newest {
            Reversal::Remove(added) => {
                self.table.remove(added);
            }
            Reversal::Insert(flow) => self.table.insert(flow),
            Reversal::Restore(map) => self.map = map,
        }
        Ok(())
    }

    // Makes all listed changes lasting: undo does not reach them any more.
    pub fn settle(&mut self)
        ensures { Obeys settle self.old self.new (Ok tt) }
    {
        self.changes.clear();
    }

    // Ends the plan and hands out its flows. A plan is not let go by accident: this is the only way to end one.
    pub fn into_table(self) -> FlowTable
        ensures { result ≡ self.table }
    {
        let Plan {
            table,
            map: _,
            changes,
            phase,
        } = self;
        drop(changes);
        drop(phase);
        table
    }
}
