use line::LineBuffer;
use plan::OpenPlan;

// A plan that is edited by lines: the line that is being received, and the number of lines answered.
pub struct Console {
    pub(crate) plan: OpenPlan,
    pub(crate) received: LineBuffer,
    pub(crate) lines: u32,
}
