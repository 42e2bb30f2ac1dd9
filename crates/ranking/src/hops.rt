ghost use Rattle.std.specs.Prelude.{◌≡◌, ◌<◌, pos, ◌-ℤ◌};
ghost use Rattle.frame.specs.Moments.{at_moment};
ghost use Rattle.frame.specs.Legs.{leg_spec};
ghost use Rattle.ranking.specs.Next.{hop_in, is_ready_leg, released_hop_of};

use frame::{Leg, Moment};

// The next hop of a leg: its sender, and the last slot of its lifetime, which may be negative.
#[derive(Clone, Copy)]
pub(crate) struct NextHop {
    pub(crate) sender: u8,
    pub(crate) end: i16,
}

impl NextHop {
    // Hop `place` of a leg.
    fn of(leg: &Leg, place: u8) -> NextHop
        requires { place < leg.now.count }
        ensures { result ≡ hop_in (leg_spec leg.now) place }
    {
        let after = leg.count - place - 1;
        NextHop {
            sender: leg.hops()[place as usize].sender,
            // due less after, as `Visit::end`, but of a leg and of 16 bits: no visit is at hand
            end: leg.due as i16 - after as i16,
        }
    }

    // The slots from one until the end of its lifetime.
    pub(crate) fn laxity(self, slot: u16) -> i32
        ensures { result ≡ self.end -ℤ pos slot }
    {
        self.end as i32 - slot as i32
    }
}

// Whether the next hop of a leg is released in a state.
fn is_ready(moment: Moment<'_>, leg: usize) -> bool
    ensures { result ≡ at_moment is_ready_leg moment.entry leg }
{
    moment.is_state() && moment.is_released(leg)
}

// The next hop of a leg, where it is released in a state.
pub(crate) fn released_hop(moment: Moment<'_>, leg: usize) -> Option<NextHop>
    ensures { result ≡ at_moment released_hop_of moment.entry leg }
{
    let found = moment.frame.legs().get(leg)?;
    // no `then`: tried, and of a closure that holds a moment and hands it on nothing was known
    if !is_ready(moment, leg) {
        return None;
    }
    Some(NextHop::of(found, moment.done(leg)))
}
