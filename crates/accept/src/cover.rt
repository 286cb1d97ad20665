// Condition (iv): leaf ranges cover the index list without overlap. At each place of the list as many leaves must begin as end before it, at
// place 0 one more. The work room counts for as many places as it has, from a given one on; a list that is longer than the room takes several rounds.
// A round looks at every node once and at as many places as the room has, which is more than there are nodes: so all rounds together take
// time in proportion to the lists' lengths.
ghost use Rattle.std.specs.Prelude.{◌≡◌, ℕ, ◌+◌, ◌-◌, ◌*◌, ◌<◌, ◌≤◌, eqb, length, get_or};
ghost use Rattle.lent.specs.Limits.{most_nodes};
ghost use Rattle.tree.specs.Lent.{node_count};
ghost use Rattle.lent.specs.Lowest.{lowest};
ghost use Rattle.accept.specs.Count.{tick};
ghost use Rattle.accept.specs.inner.Room.{uneven, Balanced};

// Counts one more that begins at a place, if the room has it.
fn more(work: &mut [u32], from: usize, at: usize)
    requires { (k : ℕ) → k < length work.old → get_or work.old k 0 ≤ 2 * most_nodes }
    ensures work_len_unchanged { length work.new ≡ length work.old }
    ensures by_index { (k : ℕ) → k < length work.old → get_or work.new k 0 ≡ get_or work.old k 0 + tick (eqb (from + k) at) }
{
    if from <= at && at - from < work.len() {
        work[at - from] += 1;
    }
}

// Counts one more that ends before a place. Not one function with `more`: they differ in the sign, and one that is told it would be no plainer.
fn fewer(work: &mut [u32], from: usize, at: usize)
    requires { (k : ℕ) → k < length work.old → 0 < get_or work.old k 0 }
    ensures work_len_unchanged { length work.new ≡ length work.old }
    ensures by_index { (k : ℕ) → k < length work.old → get_or work.new k 0 + tick (eqb (from + k) at) ≡ get_or work.old k 0 }
{
    if from <= at && at - from < work.len() {
        work[at - from] -= 1;
    }
}

// Counts where leaf i begins and ends; nothing, if it is internal.
fn weigh(links: &[u32], work: &mut [u32], from: usize, i: usize)
    requires { (i < node_count links.now) × (node_count links.now ≤ most_nodes) × Balanced links.now i work.old from }
    ensures work_len_unchanged { length work.new ≡ length work.old }
    ensures balanced { Balanced links.now (i + 1) work.new from }
{
    if links[i * 3 + 2] == 1 {
        let first = links[i * 3] as usize;
        more(work, from, first);
        fewer(work, from, first + links[i * 3 + 1] as usize);
    }
}

// For each place from the given one on that the room has: the number of nodes, with the leaves that begin there, less those that end before it.
fn balance(links: &[u32], work: &mut [u32], from: usize)
    requires { node_count links.now ≤ most_nodes }
    ensures work_len_unchanged { length work.new ≡ length work.old }
    ensures balanced { Balanced links.now (node_count links.now) work.new from }
{
    let nodes = links.len() / 3;
    work.fill(nodes as u32);
    for i in 0..nodes {
        weigh(links, work, from, i);
    }
}

// The lowest uneven place of those from the given one on, by what the room has counted.
fn first_uneven(links: &[u32], work: &[u32], from: usize, end: usize) -> Option<usize>
    requires { (node_count links.now ≤ most_nodes) × (from ≤ end) × (end ≤ from + length work.now) × Balanced links.now (node_count links.now) work.now from }
    ensures { result ≡ lowest (uneven links.now) from (end - from) }
{
    let nodes = (links.len() / 3) as u32;
    (from..end).find(|p| work[*p - from] != even(nodes, *p))
}

// What the room has where as many begin as end, at place 0 one more.
fn even(nodes: u32, p: usize) -> u32
    requires { nodes ≤ most_nodes }
    ensures { result ≡ nodes + tick (eqb p 0) }
{
    if p == 0 { nodes + 1 } else { nodes }
}

// The lowest place of a list of the given length that breaks (iv).
pub fn first_uncovered(places: usize, links: &[u32], work: &mut [u32]) -> Option<usize>
    requires { (node_count links.now ≤ most_nodes) × (0 < length work.old) }
    ensures work_len_unchanged { length work.new ≡ length work.old }
    ensures value { result ≡ lowest (uneven links.now) 0 places }
{
    let room = work.len();
    for from in (0..places).step_by(room) {
        balance(links, work, from);
        let end = from + room.min(places - from);
        if let Some(p) = first_uneven(links, work, from, end) {
            return Some(p);
        }
    }
    None
}
