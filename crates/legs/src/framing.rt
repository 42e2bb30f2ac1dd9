ghost use Rattle.std.specs.Prelude.{◌≡◌, ◌≤◌};
ghost use Rattle.table.specs.Tables.{flows_in};
ghost use Rattle.frame.specs.Frames.{frame_spec};
ghost use Rattle.legs.specs.Expand.{frame_with_channels};

use crate::expansion::expand;
use frame::{Frame, FrameMemory};
use table::FlowTable;

// The frame of a table's flows over so many channels, in memory that is there. It allocates nothing.
pub fn frame_of(table: &FlowTable, channels: u8, mut memory: FrameMemory) -> Frame
    requires { (1 ≤ channels) × (channels ≤ 15) }
    ensures { frame_spec result ≡ frame_with_channels (flows_in table.now) channels }
{
    expand(table, &mut memory.legs);
    Frame::build(memory, table.frame() as u16, channels)
}
