ghost use Rattle.std.specs.Prelude.{◌≡◌, ◌≤◌, true, [], map, IfOk};
ghost use Rattle.reserved.specs.Held.{held};
ghost use Rattle.frame.specs.Legs.{leg_spec, all_due_by, hop_total};
ghost use Rattle.frame.specs.Frames.{frame_spec};

use crate::frame::Frame;
use crate::memory::FrameMemory;
use crate::tables::fill_tables;
use reserved::Reserved;
use std::alloc::{AllocError, Global};

impl FrameMemory {
    // Reserves the memory of one frame.
    pub fn new(heap: Global) -> Result<FrameMemory, AllocError>
        ensures { IfOk result (λ m. (held m.legs ≡ []) × (held m.visits ≡ []) × (held m.starts ≡ [])) }
    {
        Ok(FrameMemory {
            legs: Reserved::new(heap)?,
            visits: Reserved::new(heap)?,
            starts: Reserved::new(heap)?,
        })
    }
}

impl Frame {
    // The frame of the legs, in the memory that holds them.
    pub fn build(mut memory: FrameMemory, slots: u16, channels: u8) -> Frame
        requires slots { (1 ≤ slots) × (slots ≤ 1024) }
        requires channels { (1 ≤ channels) × (channels ≤ 15) }
        requires timely { all_due_by slots (map leg_spec (held memory.legs)) ≡ true }
        requires light { hop_total (map leg_spec (held memory.legs)) ≤ 2048 }
        ensures legs { (frame_spec result).legs ≡ map leg_spec (held memory.legs) }
        ensures slots { (frame_spec result).slots ≡ slots }
        ensures channels { (frame_spec result).channels ≡ channels }
    {
        fill_tables(
            &mut memory.visits,
            &mut memory.starts,
            memory.legs.as_slice(),
        );
        Frame {
            memory,
            slots,
            channels,
        }
    }

    // Ends the frame and hands out its memory.
    pub fn into_memory(self) -> FrameMemory
        ensures { result ≡ self.memory }
    {
        let Frame {
            memory,
            slots: _,
            channels: _,
        } = self;
        memory
    }
}
