ghost use Rattle.std.specs.Prelude.{◌≡◌, ◌≤◌, map, length};
ghost use Rattle.reserved.specs.Held.{held};
ghost use Rattle.frame.specs.Legs.{leg_spec, hop_total};
ghost use Rattle.frame.specs.Frames.{frame_spec, leg_count};
ghost use Rattle.frame.specs.Visits.{visits_at, visits_below};

use crate::frame::Frame;
use crate::leg::Leg;
use crate::visit::Visit;

impl Frame {
    // The legs, in rising order of flow number, packet and route.
    pub fn legs(&self) -> &[Leg]
        ensures value { result.now ≡ held self.now.memory.legs }
        ensures seen { map leg_spec result.now ≡ (frame_spec self.now).legs }
        ensures len { length result.now ≡ leg_count (frame_spec self.now) }
        ensures few { length result.now ≤ 2048 }
    {
        self.memory.legs.as_slice()
    }

    // T, the number of slots.
    pub fn slots(&self) -> u16
        ensures value { result ≡ (frame_spec self.now).slots }
        ensures some { 1 ≤ result }
        ensures short { result ≤ 1024 }
    {
        self.slots
    }

    // m, the number of channels.
    pub fn channels(&self) -> u8
        ensures value { result ≡ (frame_spec self.now).channels }
        ensures some { 1 ≤ result }
        ensures few { result ≤ 15 }
    {
        self.channels
    }

    // Q, the hops of all legs.
    pub fn transmissions(&self) -> usize
        ensures value { result ≡ hop_total (frame_spec self.now).legs }
        ensures few { result ≤ 2048 }
    {
        self.legs().iter().map(|leg| leg.count as usize).sum()
    }

    // The place in the table of the first hop at a device, or at the next one above that has any.
    fn start(&self, device: usize) -> usize
        requires { device ≤ 256 }
        ensures { result ≡ length (visits_below (frame_spec self.now).legs device) }
    {
        self.memory.starts.as_slice()[device] as usize
    }

    // The hops at a device, by the ends of their lifetimes.
    pub fn visits(&self, device: u8) -> &[Visit]
        ensures value { result.now ≡ visits_at (frame_spec self.now).legs device }
        ensures few { length result.now ≤ 2048 }
    {
        let first = self.start(device as usize);
        let end = self.start(device as usize + 1);
        &self.memory.visits.as_slice()[first..end]
    }
}
