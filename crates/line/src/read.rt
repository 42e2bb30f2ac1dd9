ghost use Rattle.std.specs.Prelude.{◌≡◌, ◌≤◌, OnSome};
ghost use Rattle.std.specs.Option.{option_map};
ghost use Rattle.line.specs.Grammar.{next_number_of, only_number_of, admission, call_with, read_line_of};
ghost use Rattle.line.specs.Held.{call_of};
ghost use Rattle.line.specs.Left.{left, size};

use crate::call::Call;
use crate::number::read_number;
use crate::pieces::Pieces;
use crate::routes::read_routes;

const LONGEST_LINE: usize = 160;

// The call that a line spells, unless it is unreadable.
pub fn read_line(line: &[u8]) -> Option<Call>
    ensures { option_map call_of result ≡ read_line_of line.now }
{
    if line.len() > LONGEST_LINE {
        return None;
    }
    let mut fields = Pieces::new(line, b' ');
    let letter = fields.next()?;
    read_call(letter, fields)
}

// The call of a letter with the fields that are left. At most 160 bytes, here and below: other texts are read in pieces too.
fn read_call(letter: &[u8], fields: Pieces) -> Option<Call>
    requires { size (left fields) ≤ 160 }
    ensures { option_map call_of result ≡ call_with letter.now (left fields.entry) }
{
    let [letter] = letter else {
        return None;
    };
    match char::from(*letter) {
        'A' => read_admission(fields),
        'R' => Some(Call::Retire {
            flow: only_number(fields)?,
        }),
        'C' => Some(Call::Map {
            channels: only_number(fields)?,
        }),
        'U' if fields.is_empty() => Some(Call::Undo),
        'K' if fields.is_empty() => Some(Call::Settle),
        _ => None,
    }
}

// The flow, the period, the deadline and the routes that are left.
fn read_admission(mut fields: Pieces) -> Option<Call>
    requires { size (left fields) ≤ 160 }
    ensures { option_map call_of result ≡ admission (left fields.entry) }
{
    let flow = next_number(&mut fields)?;
    let period = next_number(&mut fields)?;
    let deadline = next_number(&mut fields)?;
    Some(Call::Admit {
        flow,
        period,
        deadline,
        routes: read_routes(fields)?,
    })
}

// The number of the one field that is left.
fn only_number(mut fields: Pieces) -> Option<u16>
    ensures { result ≡ only_number_of (left fields.entry) }
{
    let number = next_number(&mut fields)?;
    fields.is_empty().then_some(number)
}

// The number of the next field.
fn next_number(fields: &mut Pieces) -> Option<u16>
    ensures value { option_map (λ n. (n, left fields.new)) result ≡ next_number_of (left fields.old) }
    ensures bytes { OnSome result (size (left fields.new) ≤ size (left fields.old)) }
{
    read_number(fields.next()?, u16::MAX)
}
