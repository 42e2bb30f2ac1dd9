ghost use Rattle.std.specs.Prelude.{◌≡◌, ◌+◌, ◌≤◌, length, OnSome};
ghost use Rattle.std.specs.Option.{option_map};
ghost use Rattle.byte_list.specs.Bytes.{bytes_in};
ghost use Rattle.line.specs.Grammar.{route, routes};
ghost use Rattle.line.specs.Held.{behind};
ghost use Rattle.line.specs.Left.{left, size};

use crate::number::read_number;
use crate::pieces::{Pieces, count};
use byte_list::ByteList;

const LARGEST_DEVICE: u16 = 255;

// Adds the route of a field, which has room.
#[tactic(auto, using(crate::proofs::Behind::device_steps))]
fn read_route(field: &[u8], routes: &mut ByteList<160>) -> Option<()>
    requires { length (bytes_in routes.old) + length field.now + 1 ≤ 160 }
    ensures bytes { option_map (λ _. bytes_in routes.new) result
        ≡ behind (bytes_in routes.old) (route field.now) }
    ensures room { OnSome result (length (bytes_in routes.new)
        ≤ length (bytes_in routes.old) + length field.now + 1) }
{
    routes.push(count(field, b'-') as u8);
    for piece in Pieces::new(field, b'-') {
        routes.push(read_number(piece, LARGEST_DEVICE)? as u8);
    }
    Some(())
}

// The bytes of the routes that are left, one in each field.
#[tactic(auto, using(crate::proofs::Behind::route_steps))]
pub(crate) fn read_routes(fields: Pieces) -> Option<ByteList<160>>
    requires { size (left fields) ≤ 160 }
    ensures { option_map bytes_in result ≡ routes (left fields.entry) }
{
    let mut bytes = ByteList::new();
    for field in fields {
        read_route(field, &mut bytes)?;
    }
    Some(bytes)
}
