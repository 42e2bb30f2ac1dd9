ghost use Rattle.std.specs.Prelude.{◌≡◌, ◌≤◌, true, length};
ghost use Rattle.byte_list.specs.Bytes.{bytes_in};
ghost use Rattle.flow.specs.Rules.{lawful};

use byte_list::ByteList;

// A route: 2 to 9 different devices from 0 to 100, the gateway (device 0) among them.
#[derive(Clone, Copy)]
pub struct Route {
    pub devices: ByteList<9>,
    ghost least: { 2 ≤ length (bytes_in devices) },
    ghost most: { length (bytes_in devices) ≤ 9 },
    ghost ok: { lawful (bytes_in devices) ≡ true },
}
