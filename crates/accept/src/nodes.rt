// Condition (i): no node has any fault that gives 9, and with triangles present every box is finite and every leaf holds at least one.
ghost use Rattle.std.specs.Prelude.{◌≡◌, ℕ, List, Float};
ghost use Rattle.lent.specs.Lowest.{lowest};
ghost use Rattle.tree.specs.Lent.{node_count};
ghost use Rattle.tree.specs.Node.{node_of};
ghost use Rattle.accept.specs.Conditions.{foreign, bad, faulty, single, breaks_1};

use tree::{Lists, Node};

// Whether a walk that meets the node is refused with 9: it is unsound, a leaf's range ends beyond the index list, or a child is no node.
#[tactic(auto, unfolding(crate::specs::Conditions::bad, tree::specs::Node::left_of, tree::specs::Node::right_of))]
fn bad(tree: &Lists, node: Node) -> bool
    ensures { (mesh : List Float) (i : ℕ) → result ≡ bad (foreign mesh tree.now.index tree.now.boxes tree.now.links) i node }
{
    let first = node.left_or_first as usize;
    let nodes = tree.links.len() / 3;
    if !node.sound() {
        return true;
    }
    if node.kind == 1 {
        tree.index.len() < first + node.count as usize
    } else {
        nodes <= first || nodes <= first + 1
    }
}

// Whether node i of a tree over triangles has a fault.
#[tactic(auto, unfolding(crate::specs::Conditions::faulty))]
fn faulty(tree: &Lists, i: usize) -> bool
    ensures { (mesh : List Float) → result ≡ faulty (foreign mesh tree.now.index tree.now.boxes tree.now.links) i (node_of tree.now i) }
{
    let node = Node::read(tree.boxes, tree.links, i);
    bad(tree, node) || !node.bounds.bounded() || node.kind == 1 && node.count == 0
}

// Whether the lists are those of an empty mesh: one leaf with first 0, count 0 and the empty box, and an empty list.
#[tactic(auto, unfolding(crate::specs::Conditions::single))]
fn single(tree: &Lists) -> bool
    ensures { (mesh : List Float) → result ≡ single (foreign mesh tree.now.index tree.now.boxes tree.now.links) (node_of tree.now 0) }
{
    let node = Node::read(tree.boxes, tree.links, 0);
    tree.links.len() / 3 == 1
        && tree.index.len() == 0
        && node.bounds.is_empty()
        && node.left_or_first == 0
        && node.count == 0
        && node.kind == 1
}

// The lowest node that breaks (i).
pub fn first_faulty(triangles: &[f64], tree: &Lists) -> Option<usize>
    ensures { result ≡ lowest (breaks_1 (foreign triangles.now tree.now.index tree.now.boxes tree.now.links)) 0 (node_count tree.now.links) }
{
    let empty = triangles.len() / 12 == 0;
    let nodes = tree.links.len() / 3;
    (0..nodes).find(|i| {
        if empty {
            !single(tree)
        } else {
            faulty(tree, *i)
        }
    })
}
