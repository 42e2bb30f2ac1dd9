use crate::channels::ChannelMap;
use flow::Flow;

// A listed change, by what reverses it.
#[derive(Clone, Copy)]
pub enum Reversal {
    // a flow was admitted: take out the flow of this number
    Remove(u16),
    // a flow was retired: put it back
    Insert(Flow),
    // the map was set: set it as it was before
    Restore(ChannelMap),
}
