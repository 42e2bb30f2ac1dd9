// A hop at a device: hop `place` of leg `leg`, both from 0 on, with its leg's release and due slot and the number of hops
// after it. The last slot of its lifetime is `due` less `after`.
#[derive(Clone, Copy, Debug, PartialEq, Eq)]
pub struct Visit {
    pub leg: u16,
    pub place: u8,
    pub release: u16,
    pub due: u16,
    pub after: u8,
}
