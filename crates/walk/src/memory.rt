ghost use Rattle.std.specs.Prelude.{◌≡◌, ◌≤◌, ◌++◌, length, drop};
ghost use Rattle.frame.specs.Frames.{frame_spec};
ghost use Rattle.walk.specs.Memory.{short_of, position_of, unless_short};

use crate::short::Short;
use frame::{Frame, Placement};

impl Short {
    // Its position among the memories that can be too short, from 1 on.
    pub fn position(self) -> u8
        ensures { result ≡ position_of self }
    {
        self as u8 + 1
    }
}

// Refuses the first memory that is too short for the frame, of the four lengths: as many as quick has memories.
pub(crate) fn check_memory(
    frame: &Frame,
    trail: usize,
    marks: usize,
    progress: usize,
    grid: usize,
) -> Result<(), Short>
    ensures { result ≡ unless_short (short_of (frame_spec frame.now) trail marks progress grid) tt }
{
    let transmissions = frame.transmissions();
    if trail < transmissions {
        return Err(Short::Trail);
    }
    if marks < frame.slots() as usize + 1 {
        return Err(Short::Marks);
    }
    if progress < frame.legs().len() {
        return Err(Short::Progress);
    }
    if grid < transmissions {
        return Err(Short::Grid);
    }
    Ok(())
}

// Copies placements to the front of the memory.
pub(crate) fn copy_front(placements: &[Placement], room: &mut [Placement])
    requires { length placements.now ≤ length room.old }
    ensures { room.new ≡ placements.now ++ drop (length placements.now) room.old }
{
    let count = placements.len();
    room[0..count].copy_from_slice(placements);
}
