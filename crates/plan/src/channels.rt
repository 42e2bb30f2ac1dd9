ghost use Rattle.std.specs.Prelude.{◌≡◌, ◌≤◌, Ok, count_ones};
ghost use Rattle.flow.specs.Outcomes.{unless, given};

use table::{PlanFault, PlanRule};

// The channels that may be used: bit k allows channel 11 + k. At least one of the 15 is set, and bit 15 never is.
#[derive(Clone, Copy)]
pub struct ChannelMap {
    pub bits: u16,
    ghost some: { 1 ≤ bits },
    ghost known: { bits ≤ 32767 },
}

// The map of these 16 bits. It is refused where it is 0 or has bit 15.
impl TryFrom<u16> for ChannelMap {
    ghost use Rattle.plan.specs.Journal.{map_fault};

    type Error = PlanFault;

    ghost try_from_gives = { λ bits result. given (λ map. map.bits) result ≡ unless (map_fault bits) (Ok bits) };

    fn try_from(bits: u16) -> Result<ChannelMap, PlanFault> {
        if !(1..=32767).contains(&bits) {
            return Err(PlanRule::Channels.into());
        }
        Ok(ChannelMap { bits })
    }
}

impl ChannelMap {
    // The number of channels: the ones of the map, 1 to 15.
    pub fn count(&self) -> u32
        ensures value { result ≡ count_ones self.now.bits }
        ensures least { 1 ≤ result }
        ensures most { result ≤ 15 }
    {
        self.bits.count_ones()
    }
}
