// The fallback order (rule C5): ascending by centroid in the total order of floats, the lower number first where two are equal. It stands for
// `select_nth_unstable_by` of the Rust, which leaves the order open. A heap sort: in place, and n log n on any range.
ghost use Rattle.std.specs.Prelude.{◌≡◌, ℕ, ◌+◌, ◌*◌, ◌≤◌, ◌<◌, length, get_or, Float};
ghost use Rattle.triangle.specs.Mesh.{centroid_at};
ghost use Rattle.lent.specs.Limits.{most_triangles};
ghost use Rattle.builder.specs.Fallback.{sorts_before, ordered};
ghost use Rattle.lent.specs.Permutation.{Perm};
ghost use Rattle.builder.specs.inner.Heap.{HeapFrom, Greater};

use crate::range;

// A triangle number, and the centroid of that triangle on the axis of the order: worked out once for several comparisons.
#[derive(Clone, Copy)]
pub struct Ranked {
    pub number: u32,
    pub centroid: f64,
}

impl Ranked {
    pub fn of(triangles: &[f64], axis: usize, number: u32) -> Ranked
        ensures { (result.number ≡ number) × (result.centroid ≡ centroid_at triangles.now axis result.number) }
    {
        Ranked {
            number,
            centroid: range::centroid_on(triangles, number, axis),
        }
    }
}

// A place of the heap, and what stands there.
#[derive(Clone, Copy)]
pub struct Child {
    pub place: usize,
    pub own: Ranked,
}

// Whether triangle a comes before triangle b. Equal numbers but zeros, most of those that are put in order, and numbers that differ are told by comparisons; `total_cmp` for the rest.
#[tactic(auto, using(crate::proofs::Linear::ahead), unfolding(crate::specs::Fallback::sorts_before))]
pub fn is_ahead(a: Ranked, b: Ranked) -> bool
    ensures { (at : ℕ → Float) → a.centroid ≡ at a.number → b.centroid ≡ at b.number → result ≡ sorts_before at a.number b.number }
{
    let x = a.centroid;
    let y = b.centroid;
    if x == y && x != 0.0 {
        return a.number < b.number;
    }
    if x < y {
        return true;
    }
    if y < x {
        return false;
    }
    float::total_less(x, y) || !float::total_less(y, x) && a.number < b.number
}

// The greater child of place i of the heap.
pub fn greater_child(triangles: &[f64], index: &[u32], axis: usize, i: usize) -> Child
    requires { 2 * i + 1 < length index.now }
    ensures greater { Greater (sorts_before (centroid_at triangles.now axis)) index.now i result.place }
    ensures number_value { (result.own.number ≡ get_or index.now result.place 0) × (result.own.centroid ≡ centroid_at triangles.now axis result.own.number) }
{
    let l = 2 * i + 1;
    let left = Ranked::of(triangles, axis, index[l]);
    if index.len() - l < 2 {
        return Child {
            place: l,
            own: left,
        };
    }
    let r = l + 1;
    let right = Ranked::of(triangles, axis, index[r]);
    if is_ahead(left, right) {
        Child {
            place: r,
            own: right,
        }
    } else {
        Child {
            place: l,
            own: left,
        }
    }
}

// The number at `at` goes down to its place, from child to child: what was a heap below `at` is one from `at` on.
pub fn sift(triangles: &[f64], index: &mut [u32], axis: usize, at: usize)
    requires index_len_bound { (length index.old ≤ most_triangles) × (at < length index.old) }
    requires heap_from { HeapFrom (sorts_before (centroid_at triangles.now axis)) (at + 1) index.old }
    ensures perm { Perm index.new index.old }
    ensures heap_from_2 { HeapFrom (sorts_before (centroid_at triangles.now axis)) at index.new }
{
    let own = Ranked::of(triangles, axis, index[at]);
    let mut i = at;
    // A `while`: what moves is a place of the heap, downwards, and no index is counted.
    while 2 * i + 1 < index.len() {
        let g = greater_child(triangles, index, axis, i);
        if !is_ahead(own, g.own) {
            return;
        }
        index.swap(i, g.place);
        i = g.place;
    }
}

// The range in ascending order: a heap is made, and its greatest taken off, one after the other.
pub fn put_in_order(triangles: &[f64], index: &mut [u32], axis: usize)
    requires { length index.old ≤ most_triangles }
    ensures { index.new ≡ ordered triangles.now axis index.old }
{
    for k in (0..index.len()).rev() {
        sift(triangles, index, axis, k);
    }
    for end in (1..index.len()).rev() {
        index.swap(0, end);
        sift(triangles, &mut index[0..end], axis, 0);
    }
}
