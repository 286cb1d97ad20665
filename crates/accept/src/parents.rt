// Conditions (ii) and (iii). The work room has for each node NONE, or its parent's number and one, or SEVERAL where it has more than one parent.
// From each node at most 63 steps up must lead to node 0: so no list of links, however tangled, makes more than 63 steps a node.
ghost use Rattle.std.specs.Prelude.{◌≡◌, cond, length, get_or, set, ℕ, ◌<◌, ◌≤◌};
ghost use Rattle.lent.specs.Limits.{most_nodes, deepest};
ghost use Rattle.tree.specs.Lent.{node_count};
ghost use Rattle.lent.specs.Lowest.{lowest};
ghost use Rattle.accept.specs.inner.Room.{parent_at, adopted, named, orphan, climbs, adrift};

// No parent was found yet, or more than one.
pub const NONE: u32 = 0;

const SEVERAL: u32 = 0xffff_ffff;

// Writes down node i as the parent of a node.
#[tactic(auto, unfolding(crate::specs::inner::Room::adopted))]
fn adopt(work: &mut [u32], child: usize, i: usize)
    requires { i < most_nodes }
    ensures { work.new ≡ set work.old child (adopted (get_or work.old child 0) i) }
{
    if child < work.len() {
        work[child] = if work[child] == NONE {
            i as u32 + 1
        } else {
            SEVERAL
        };
    }
}

// Writes down node i as the parent of its children, if it is internal.
fn name_children(links: &[u32], work: &mut [u32], i: usize)
    requires { (i < node_count links.now) × (i < most_nodes) }
    ensures work_len_unchanged { length work.new ≡ length work.old }
    ensures by_index { (j : ℕ) → j < length work.old → get_or work.new j 0 ≡ cond (parent_at links.now j i) (adopted (get_or work.old j 0) i) (get_or work.old j 0) }
{
    if links[i * 3 + 2] == 0 {
        let left = links[i * 3] as usize;
        adopt(work, left, i);
        adopt(work, left + 1, i);
    }
}

// Writes down the parents of all nodes, in room that is zero.
pub fn name_parents(links: &[u32], work: &mut [u32])
    requires { (node_count links.now ≤ most_nodes) × (node_count links.now ≤ length work.old) × ((j : ℕ) → j < node_count links.now → get_or work.old j 0 ≡ 0) }
    ensures work_len_unchanged { length work.new ≡ length work.old }
    ensures by_index { (j : ℕ) → j < node_count links.now → get_or work.new j 0 ≡ named links.now j (node_count links.now) }
{
    for i in 0..links.len() / 3 {
        name_children(links, work, i);
    }
}

// Whether node j has no parent, or several; node 0, whether it has any.
#[tactic(auto, unfolding(crate::specs::inner::Room::orphan))]
fn orphan(work: &[u32], j: usize) -> bool
    ensures { result ≡ orphan work.now j }
{
    let told = tree::word(work, j);
    if j == 0 {
        told != NONE
    } else {
        told == NONE || told == SEVERAL
    }
}

// The lowest node that breaks (ii).
pub fn first_orphan(work: &[u32], nodes: usize) -> Option<usize>
    ensures { result ≡ lowest (orphan work.now) 0 nodes }
{
    (0..nodes).find(|j| orphan(work, *j))
}

// Whether at most 63 steps up lead from node j to node 0.
fn climbs(work: &[u32], j: usize) -> bool
    ensures { result ≡ climbs work.now deepest j }
{
    let mut at = j;
    for _ in 0..lent::DEEPEST {
        if at == 0 {
            return true;
        }
        let told = tree::word(work, at);
        if told == NONE {
            return false;
        }
        at = told as usize - 1;
    }
    at == 0
}

// The lowest node that breaks (iii).
pub fn first_unreached(work: &[u32], nodes: usize) -> Option<usize>
    ensures { result ≡ lowest (adrift work.now) 0 nodes }
{
    (0..nodes).find(|j| !climbs(work, *j))
}
