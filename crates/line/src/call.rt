use byte_list::ByteList;

// What a line asks for.
#[derive(Clone, Copy)]
pub enum Call {
    // the fields of the table's request, with the bytes of their own: the line is let go first
    Admit {
        flow: u16,
        period: u16,
        deadline: u16,
        // for each route its number of devices, then the devices; a line of 160 bytes cannot give more than fit
        routes: ByteList<160>,
    },
    Retire {
        flow: u16,
    },
    // bit k of the map allows channel 11 + k
    Map {
        channels: u16,
    },
    Undo,
    Settle,
}
