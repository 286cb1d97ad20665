// One step of the walk: a node is taken, judged, its box tested, and dropped or opened.
ghost use Rattle.std.specs.Prelude.{◌≡◌, ◌≤◌, ◌+◌, ◌^◌};
ghost use Rattle.aabb.specs.Slab.{aimed};
ghost use Rattle.tree.specs.Lent.{node_count};
ghost use Rattle.lent.specs.Limits.{most_nodes, most_pending};
ghost use Rattle.walk.specs.inner.Turns.{Leaves, open_internal, visit};
ghost use Rattle.walk.specs.inner.State.{Ready};

use crate::leaf;
use crate::tally::Tally;
use crate::turn::Turn;
use aabb::Aim;
use lent::{Reason, Refused};
use tree::{Lent, Node};

// An internal node whose box is passed, with `besides` pending besides. Right is left + 1: where it is a node, so is left.
#[tactic(auto, unfolding(crate::specs::inner::Turns::open_internal, tree::specs::Node::left_of, tree::specs::Node::right_of))]
pub fn open_internal(nodes: usize, i: u32, x: Node, besides: usize) -> Result<Turn, Refused>
    requires { (nodes ≤ most_nodes) × (besides ≤ most_pending) }
    ensures { result ≡ open_internal nodes i x besides }
{
    let left = x.left(i);
    let right = x.right(i);
    if nodes <= right {
        return Err(Refused {
            reason: Reason::BadNode,
            at: i as usize,
        });
    }
    if lent::MOST_PENDING < besides + 2 {
        return Err(Refused {
            reason: Reason::Full,
            at: i as usize,
        });
    }
    Ok(Turn::Open {
        left: left as u32,
        right: right as u32,
    })
}

// Node i, with `besides` pending besides. Its box test is counted already.
#[tactic(auto, unfolding(crate::specs::inner::Turns::visit, crate::specs::inner::Turns::judged, crate::specs::inner::Turns::opened, aabb::specs::Slab::slab))]
pub fn visit(scene: &Lent, aim: Aim, i: u32, besides: usize, a: Tally) -> Result<Turn, Refused>
    requires { Ready scene.now.tree.links i besides a × (aim ≡ aimed aim.ray) }
    ensures turn { result ≡ visit scene.now.mesh.triangles scene.now.tree aim.ray i besides a }
    ensures ahead { Leaves (node_count scene.now.tree.links) besides a.boxes (a.triangles + 2 ^ 32) result }
{
    let mesh = &scene.mesh;
    let tree = &scene.tree;
    let x = Node::read(tree.boxes, tree.links, i as usize);
    if !x.sound() {
        return Err(Refused {
            reason: Reason::BadNode,
            at: i as usize,
        });
    }
    if aim.through(x.bounds).is_none() {
        return Ok(Turn::Missed);
    }
    if x.kind == 1 {
        return leaf::open(mesh.triangles, tree.index, aim.ray, i, x, a);
    }
    open_internal(tree.links.len() / 3, i, x, besides)
}
