ghost use Rattle.std.specs.Prelude.{◌≡◌, ◌≤◌, true, map, length, take};
ghost use Rattle.flow.specs.Rules.{all_agree};
ghost use Rattle.flow.specs.Views.{devices_in};

use crate::route::Route;

// The routes of one flow: one to three, all with the same first and the same last device.
// Places of `list` past `count` mean nothing. An array with a count: flows are copied and allocate nothing, and a
// generic struct cannot hold an array of a type parameter.
#[derive(Clone, Copy)]
pub struct Routes {
    pub list: [Route; 3],
    pub count: u8,
    ghost places: { length list ≡ 3 },
    ghost some: { 1 ≤ count },
    ghost few: { count ≤ 3 },
    ghost ends: { all_agree (map devices_in (take count list)) ≡ true },
}
