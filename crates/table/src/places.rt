ghost use Rattle.std.specs.Prelude.{◌≡◌, is_ok, MatchResult};
ghost use Rattle.table.specs.Force.{in_force};
ghost use Rattle.table.specs.Places.{IsIndexOf, IsPlaceOf};
ghost use Rattle.table.specs.Tables.{flows_in};

use crate::table::FlowTable;

impl FlowTable {
    // The index of the flow of that number, or else the index at which it would stand.
    pub(crate) fn search(&self, number: u16) -> Result<usize, usize>
        ensures held { is_ok result ≡ in_force number (flows_in self.now) }
        ensures place { MatchResult result (IsIndexOf number (flows_in self.now)) (IsPlaceOf number (flows_in self.now)) }
    {
        self.as_slice()
            .binary_search_by_key(&number, |flow| flow.number)
    }
}
