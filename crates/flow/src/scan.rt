ghost use Rattle.std.specs.Prelude.{◌≡◌, ◌<◌, length, IfSome};
ghost use Rattle.flow.specs.Rules.{first_unknown_of, first_repeat_of, has_gateway_in};

// Devices are numbered from 0 to 100.
const LARGEST: u8 = 100;

// The gateway is device 0.
const GATEWAY: u8 = 0;

// The index of the first device above 100.
pub(crate) fn first_unknown(devices: &[u8]) -> Option<usize>
    ensures value { result ≡ first_unknown_of devices.now }
    ensures below { IfSome result (λ i. i < length devices.now) }
{
    devices.iter().position(|device| *device > LARGEST)
}

// The index of the first device that stands earlier in the route.
pub(crate) fn first_repeat(devices: &[u8]) -> Option<usize>
    ensures value { result ≡ first_repeat_of devices.now }
    ensures below { IfSome result (λ i. i < length devices.now) }
{
    // nested loops that a label leaves: a form that the project fixes for this search
    let mut found = None;
    'search: for later in 0..devices.len() {
        for earlier in 0..later {
            if devices[earlier] == devices[later] {
                found = Some(later);
                break 'search;
            }
        }
    }
    found
}

// Whether the gateway is among the devices.
pub(crate) fn has_gateway(devices: &[u8]) -> bool
    ensures { result ≡ has_gateway_in devices.now }
{
    devices.contains(&GATEWAY)
}
