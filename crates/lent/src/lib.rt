// What every call over lent lists needs: the limits here, and in specs/ and proofs/ the ladder of refusals, flat records and permutations.
// The Rust has none of it: its lists grow, and it never refuses.
#![tactic(auto)]

mod refusal; // refusal.rt: why a call is refused

pub use refusal::{Reason, Refused};

// n at most.
pub const MOST_TRIANGLES: usize = 65536;

// The 2n-1 nodes that they can have.
pub const MOST_NODES: usize = 131071;

// No node of a built tree is deeper (root 0).
pub const DEEPEST: usize = 63;

// Pending node numbers of a walk at most.
pub const MOST_PENDING: usize = 64;

// Placements of a street at most.
pub const MOST_PLACEMENTS: usize = 1024;

// Rays of a call that weighs them.
pub const MOST_RAYS: usize = 1048576;
