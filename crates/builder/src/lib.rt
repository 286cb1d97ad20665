// The builder: a port of builder.rs. Triangles are put into a binary tree of boxes, node for node as the Rust does it.
// Each `Vec` of the Rust is a buffer that the caller lends; `find_best_split` is an inner part (split.rt) and not public.
#![tactic(auto)]

mod range; // range.rt: what is asked of a range of triangle numbers
mod bins; // bins.rt: the sixteen bins of each axis
mod split; // split.rt: the choice of a split
mod partition; // partition.rt: the partition of a range
mod ordering; // ordering.rt: the fallback order
mod nodes; // nodes.rt: a node, written
mod division; // division.rt: the division of a range, which calls itself
mod start; // start.rt: what is tested and written before the division

ghost use Rattle.std.specs.Prelude.{◌≡◌, ◌+◌, ◌*◌, ◌/◌, ◌≤◌, ◌-◌, length};
ghost use Rattle.lent.specs.Limits.{most_triangles, deepest};
ghost use Rattle.builder.specs.Tree.{grow};
ghost use Rattle.lent.specs.Permutation.{up_to};
ghost use Rattle.builder.specs.Reply.{reply};
ghost use Rattle.builder.specs.Build.{outcome, finished, built};

use lent::{Reason, Refused};
pub use start::{clear_floats, room};

// How many nodes and leaves a built tree has.
#[derive(Clone, Copy, Debug, PartialEq, Eq)]
pub struct Built {
    pub nodes: usize,
    pub leaves: usize,
}

// The tree of the triangles, twelve numbers each: v0, v1, v2, normal. On success `index` has the triangle numbers, each leaf's in one range,
// `boxes` six numbers a node (min, then max) and `links` three (rule D3: `left_or_first`, `count`, and kind, 1 of a leaf); room beyond the n
// entries and the 2L-1 nodes stays (rule C9). Refused, in this order: 1 the triangles are not in twelves; 2 more than 65,536 of them (at: how
// many); 3 less index room than one a triangle; 4 room for fewer nodes than the triangles can have, in boxes or in links (at: how many,
// 2n-1 or 1); 5 a triangle isn't admitted (at: the lowest such number); 6 the tree would go deeper than 63. Refusals 1 to 5 write nothing;
// after 6 every number that was lent to be written is zero. (The room is three lists, as C lends them; a struct of three `&mut` would be taken apart again
// at once, since a division cuts the index list alone.)
#[tactic(auto, using(crate::proofs::StartLoops::room_is), unfolding(crate::specs::Build::built, crate::specs::Reply::reply, triangle::specs::Mesh::unadmitted, lent::specs::Ladder::unless, lent::specs::Ladder::answered, lent::specs::Ladder::first_failed))]
pub fn build(
    triangles: &[f64],
    index: &mut [u32],
    boxes: &mut [f64],
    links: &mut [u32],
) -> Result<Built, Refused>
    ensures { outcome (reply result) index.new boxes.new links.new ≡ built triangles.now index.old boxes.old links.old }
{
    let n = triangle::count(triangles)?;
    if index.len() < n {
        return Err(Refused {
            reason: Reason::ShortIndex,
            at: 0,
        });
    }
    let room = start::room(n as u32);
    if boxes.len() / 6 < room || links.len() / 3 < room {
        return Err(Refused {
            reason: Reason::ShortTree,
            at: room,
        });
    }
    if let Some(at) = triangle::first_refused(triangles, n) {
        return Err(Refused {
            reason: Reason::BadTriangle,
            at,
        });
    }
    make(triangles, index, boxes, links, n)
}

// The tree of n admitted triangles, in room that suffices.
fn make(
    triangles: &[f64],
    index: &mut [u32],
    boxes: &mut [f64],
    links: &mut [u32],
    n: usize,
) -> Result<Built, Refused>
    requires n_in_bounds { n ≤ length triangles.now / 12 }
    requires n_le_most_triangles { (n ≤ most_triangles) × (n ≤ length index.old) × ((1 + 2 * (n - 1)) * 6 ≤ length boxes.old) × ((1 + 2 * (n - 1)) * 3 ≤ length links.old) }
    ensures { outcome (reply result) index.new boxes.new links.new ≡ finished n (grow triangles.now deepest 0 (up_to n)) index.old boxes.old links.old }
{
    start::count_up(&mut index[0..n]);
    let Some(nodes) = division::subdivide(
        triangles,
        &mut index[0..n],
        boxes,
        links,
        0,
        0,
        1,
        lent::DEEPEST,
    ) else {
        index.fill(0);
        start::clear_floats(boxes);
        links.fill(0);
        return Err(Refused {
            reason: Reason::Deep,
            at: 0,
        });
    };
    let leaves = nodes / 2 + 1;
    Ok(Built { nodes, leaves })
}
