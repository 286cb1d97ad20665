// The division of a range into the tree at a node (rules C3 to C8): `subdivide_bvh_node` of the Rust, with a limit to the depth.
ghost use Rattle.std.specs.Prelude.{ℕ, ◌+◌, ◌*◌, ◌/◌, ◌≤◌, ◌<◌, ◌-◌, length};
ghost use Rattle.lent.specs.Limits.{most_triangles, most_nodes};
ghost use Rattle.builder.specs.Tree.{grow};
ghost use Rattle.builder.specs.Range.{Numbered};
ghost use Rattle.builder.specs.Layout.{Divided};

use crate::split::Split;
use crate::{nodes, partition, range, split};

// The range, whose first stands at `first` of the index list, is divided as the tree at `node`. Nodes from `next` on are free, and `below` levels may
// still come below it. The children's numbers are the next two; the left side is done, with all below it, before the right is begun (rule C6). The
// answer is the next free node number; none where the tree is too deep. `index`, `boxes` and `links` are no struct: it would be made anew for each half.
pub fn subdivide(
    triangles: &[f64],
    index: &mut [u32],
    boxes: &mut [f64],
    links: &mut [u32],
    node: usize,
    first: usize,
    next: usize,
    below: usize,
) -> Option<usize>
    requires numbered { Numbered triangles.now index.old }
    requires index_bound { (first + length index.old ≤ most_triangles) × (node < next) × (next + 2 * (length index.old - 1) ≤ most_nodes) }
    requires index_in_bounds { ((next + 2 * (length index.old - 1)) * 6 ≤ length boxes.old) × ((next + 2 * (length index.old - 1)) * 3 ≤ length links.old) }
    ensures { Divided (grow triangles.now below first index.old) node next boxes.old links.old result index.new boxes.new links.new }
{
    let hull = range::around(triangles, index);
    nodes::put_box(boxes, node, hull.bounds);
    let decision = split::find_best_split(triangles, index, hull);
    let Some(Split { axis, position }) = decision else {
        nodes::put_link(links, node, first as u32, index.len() as u32, 1);
        return Some(next);
    };
    if below == 0 {
        return None;
    }
    let left = partition::separate(triangles, index, axis, position);
    nodes::put_link(links, node, next as u32, 0, 0);
    let then = subdivide(
        triangles,
        &mut index[0..left],
        boxes,
        links,
        next,
        first,
        next + 2,
        below - 1,
    )?;
    subdivide(
        triangles,
        &mut index[left..],
        boxes,
        links,
        next + 1,
        first + left,
        then,
        below - 1,
    )
}
