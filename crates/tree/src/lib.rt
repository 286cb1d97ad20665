// A node of the lent lists, as a walk and a check of strangers' trees read it: `BvhNode` of builder.rs, by six f64 of box and three u32 of links.
#![tactic(auto)]

mod lists; // lists.rt: what a caller lends

ghost use Rattle.std.specs.Prelude.{◌≡◌, get_or};
ghost use Rattle.tree.specs.Node.{linked, node_at, sound, left_of, right_of, misfit};

use aabb::Aabb;
pub use lists::{Lent, Lists, Mesh};

#[derive(Clone, Copy)]
pub struct Node {
    pub bounds: Aabb,
    pub left_or_first: u32,
    pub count: u32,
    // 1 of a leaf, 0 of an internal node; a number, not an enum, since a caller lends it and it may be any.
    pub kind: u32,
}

// The word at a place of a lent slice, or 0 beyond its end. (A call of its own: `get` with `copied` and `unwrap_or` would stand at each of its uses.)
pub fn word(words: &[u32], at: usize) -> u32
    ensures { result ≡ get_or words.now at 0 }
{
    if at < words.len() { words[at] } else { 0 }
}

// Node i with the box given, where not all of its links are there.
#[tactic(auto, unfolding(crate::specs::Node::linked))]
fn cut(bounds: Aabb, links: &[u32], i: usize) -> Node
    ensures { result ≡ linked bounds links.now i }
{
    if links.len() / 3 < i {
        return Node {
            bounds,
            left_or_first: 0,
            count: 0,
            kind: 0,
        };
    }
    let at = i * 3;
    let left_or_first = word(links, at);
    let count = word(links, at + 1);
    let kind = word(links, at + 2);
    Node {
        bounds,
        left_or_first,
        count,
        kind,
    }
}

impl Node {
    // Node i; a NaN for each number of box, and 0 for each link, that is beyond the lists' ends. (Two slices, not `Lists`: a node has no part in the index list.)
    // Inlined, since a walk reads a node at each step: as a call it took a walk an eighth longer.
    #[inline(always)]
    #[tactic(auto, unfolding(crate::specs::Node::linked, crate::specs::Node::node_at))]
    pub fn read(boxes: &[f64], links: &[u32], i: usize) -> Node
        ensures { result ≡ node_at boxes.now links.now i }
    {
        let bounds = Aabb::read(boxes, i);
        if i < links.len() / 3 {
            let left_or_first = links[i * 3];
            let count = links[i * 3 + 1];
            let kind = links[i * 3 + 2];
            return Node {
                bounds,
                left_or_first,
                count,
                kind,
            };
        }
        cut(bounds, links, i)
    }

    // Whether a walk can use it (rule N5): a leaf, or an internal node without a count, with a usable box.
    #[tactic(auto, unfolding(crate::specs::Node::sound))]
    pub fn sound(self) -> bool
        ensures { result ≡ sound self }
    {
        self.bounds.usable() && (self.kind == 1 || self.kind == 0 && self.count == 0)
    }

    // The children of an internal node, whose number is i.
    #[tactic(auto, unfolding(crate::specs::Node::left_of))]
    pub fn left(self, i: u32) -> usize
        ensures { result ≡ left_of i self }
    {
        self.left_or_first as usize
    }

    #[tactic(auto, unfolding(crate::specs::Node::right_of))]
    pub fn right(self, i: u32) -> usize
        ensures { result ≡ right_of i self }
    {
        self.left_or_first as usize + 1
    }
}

// Refusal 8: no links, links that are not in threes, more nodes than a tree may have, or another number of boxes than of nodes.
#[tactic(auto, unfolding(crate::specs::Node::misfit))]
pub fn misfit(boxes: &[f64], links: &[u32]) -> bool
    ensures { result ≡ misfit boxes.now links.now }
{
    let n = links.len();
    n == 0 || n % 3 != 0 || lent::MOST_NODES < n / 3 || boxes.len() != 2 * n
}
