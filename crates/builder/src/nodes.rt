// A node, written into the lent lists: six numbers of its box, and three of its links.
ghost use Rattle.std.specs.Prelude.{◌≡◌, ◌+◌, ◌*◌, ◌≤◌, length};
ghost use Rattle.builder.specs.Layout.{box_put, link_put};

use aabb::Aabb;

// (The lists are what C lends: so a node is numbers in two of them, not a struct in one.)
pub fn put_box(boxes: &mut [f64], node: usize, b: Aabb)
    requires { node * 6 + 6 ≤ length boxes.old }
    ensures { boxes.new ≡ box_put boxes.old node b }
{
    let at = node * 6;
    boxes[at] = b.min.x;
    boxes[at + 1] = b.min.y;
    boxes[at + 2] = b.min.z;
    boxes[at + 3] = b.max.x;
    boxes[at + 4] = b.max.y;
    boxes[at + 5] = b.max.z;
}

// `first` is `left_or_first`: the left child of an internal node, or the place of a leaf's first in the index list. `kind`
// is a number, since C reads it there.
pub fn put_link(links: &mut [u32], node: usize, first: u32, count: u32, kind: u32)
    requires { node * 3 + 3 ≤ length links.old }
    ensures { links.new ≡ link_put links.old node first count kind }
{
    let at = node * 3;
    links[at] = first;
    links[at + 1] = count;
    links[at + 2] = kind;
}
