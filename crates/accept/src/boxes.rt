// Condition (vi): each inner box numerically contains its children's boxes and each leaf box its vertices.
ghost use Rattle.std.specs.Prelude.{◌≡◌};
ghost use Rattle.lent.specs.Lowest.{lowest};
ghost use Rattle.triangle.specs.Mesh.{triangle_at};
ghost use Rattle.tree.specs.Lent.{node_count};
ghost use Rattle.tree.specs.Node.{node_of};
ghost use Rattle.accept.specs.Conditions.{foreign, holds_all, holds_each, encloses, breaks_6};

use aabb::Aabb;
use tree::{Lists, Node};
use triangle::Corners;

// Whether a box holds the vertices of triangle k.
#[tactic(auto, unfolding(crate::specs::Conditions::holds_all, triangle::specs::Mesh::corners_of))]
fn holds_all(triangles: &[f64], b: Aabb, k: usize) -> bool
    ensures { result ≡ holds_all b (triangle_at triangles.now k) }
{
    let t = Corners::read(triangles, k);
    b.holds(t.v0) && b.holds(t.v1) && b.holds(t.v2)
}

// Whether a box holds the vertices of the triangles at so many places from the first on.
fn holds_each(triangles: &[f64], index: &[u32], b: Aabb, first: u32, count: u32) -> bool
    ensures { result ≡ holds_each triangles.now index.now b count first }
{
    let from = first as usize;
    let end = from + count as usize;
    (from..end).all(|p| holds_all(triangles, b, tree::word(index, p) as usize))
}

// Whether node i holds what is below it: a leaf the vertices of its triangles, an inner node its children's boxes.
#[tactic(auto, unfolding(crate::specs::Conditions::encloses, tree::specs::Node::left_of, tree::specs::Node::right_of))]
fn encloses(triangles: &[f64], tree: &Lists, i: usize) -> bool
    ensures { result ≡ encloses (foreign triangles.now tree.now.index tree.now.boxes tree.now.links) i (node_of tree.now i) }
{
    let node = Node::read(tree.boxes, tree.links, i);
    let b = node.bounds;
    if node.kind == 1 {
        return holds_each(triangles, tree.index, b, node.left_or_first, node.count);
    }
    let first = node.left_or_first as usize;
    b.contains(Aabb::read(tree.boxes, first)) && b.contains(Aabb::read(tree.boxes, first + 1))
}

// The lowest node that breaks (vi).
pub fn first_loose(triangles: &[f64], tree: &Lists) -> Option<usize>
    ensures { result ≡ lowest (breaks_6 (foreign triangles.now tree.now.index tree.now.boxes tree.now.links)) 0 (node_count tree.now.links) }
{
    let nodes = tree.links.len() / 3;
    (0..nodes).find(|i| !encloses(triangles, tree, *i))
}
