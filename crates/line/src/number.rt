ghost use Rattle.std.specs.Prelude.{◌≡◌, ◌+◌, ◌-◌, ◌*◌, ◌^◌, ◌<◌, ◌≤◌, length, IfSome};
ghost use Rattle.std.specs.Bool.{then_some};
ghost use Rattle.std.specs.Char.{is_ascii_digit};
ghost use Rattle.std.specs.List.{list_all};
ghost use Rattle.line.specs.Grammar.{number, is_shaped, value_from};

const MOST_DIGITS: usize = 5;

// The number that a field spells; one that is too large becomes the largest.
#[tactic(auto, using(crate::proofs::Digits::number_bounds))]
pub(crate) fn read_number(field: &[u8], largest: u16) -> Option<u16>
    ensures value { result ≡ number largest field.now }
    ensures bounds { IfSome result (λ n. (n ≤ largest) × (0 < length field.now)) }
{
    if !is_shaped(field) {
        return None;
    }
    Some(value_of(field)?.min(u32::from(largest)) as u16)
}

// Whether a field has one to five bytes, and '0' in front only alone.
fn is_shaped(field: &[u8]) -> bool
    ensures { result ≡ is_shaped field.now }
{
    !field.is_empty() && field.len() <= MOST_DIGITS && (field.len() == 1 || field[0] != b'0')
}

// The value of at most five digits, unless one of the bytes is no digit.
fn value_of(digits: &[u8]) -> Option<u32>
    requires { length digits.now ≤ 5 }
    ensures { result ≡ then_some (list_all is_ascii_digit digits.now) (value_from 0 digits.now) }
{
    digits.iter().try_fold(0, with_digit)
}

// A value with one more digit behind it, unless the byte is no digit.
fn with_digit(value: u32, byte: &u8) -> Option<u32>
    requires { value < 10 ^ 5 }
    ensures { result ≡ then_some (is_ascii_digit byte.now) (value * 10 + (byte.now - 48)) }
{
    byte.is_ascii_digit()
        .then(|| value * 10 + u32::from(byte - b'0'))
}
