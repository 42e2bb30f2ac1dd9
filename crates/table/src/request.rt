// A flow that a caller asks to admit: its routes are still bytes.
#[derive(Clone, Copy)]
pub struct FlowRequest<'a> {
    pub number: u16,
    pub period: u16,
    pub deadline: u16,
    pub routes: &'a [u8],
}
