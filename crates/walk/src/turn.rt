// How a step of the walk that isn't refused ends.
use crate::tally::Tally;

// What a step does with the pending node that it took. (Three ways, so no `Option`.)
#[derive(Clone, Copy)]
pub enum Turn {
    // A leaf, done with: one fewer is pending, and the tally is this after its tests.
    Down(Tally),
    // The node's children take its place.
    Open { left: u32, right: u32 },
    // The ray misses the node's box: one fewer is pending.
    Missed,
}
