// The sixteen bins of each axis, each with a count and a box: how they are filled, three axes in one pass.
ghost use Rattle.std.specs.Prelude.{◌≡◌, ◌+◌, ◌/◌, ◌≤◌, ◌<◌, length, replicate};
ghost use Rattle.aabb.specs.Bounds.{Clear};
ghost use Rattle.lent.specs.Limits.{most_triangles};
ghost use Rattle.builder.specs.Range.{Numbered};
ghost use Rattle.builder.specs.Bins.{whole, no_bin, with_box, join_bins, bin_of, with_one, filled};
ghost use Rattle.builder.specs.inner.Held.{Held};

use crate::range;
use aabb::{Aabb, Vec3};

#[derive(Clone, Copy)]
pub struct Bin {
    pub count: u32,
    pub bounds: Aabb,
}

// The bins of each axis.
#[derive(Clone, Copy)]
pub struct Axes {
    pub x: [Bin; 16],
    pub y: [Bin; 16],
    pub z: [Bin; 16],
}

impl Bin {
    #[tactic(auto, using(aabb::proofs::Running::clear_as, aabb::proofs::Running::empty_clear), unfolding(crate::specs::Bins::no_bin))]
    pub fn none() -> Bin
        ensures { (result ≡ no_bin) × Clear result.bounds }
    {
        let bounds = Aabb::empty();
        Bin { count: 0, bounds }
    }

    pub fn joined(self, other: Bin) -> Bin
        requires { (self.count + other.count ≤ 16777216) × Clear self.bounds }
        ensures { (result ≡ join_bins self other) × Clear result.bounds }
    {
        let bounds = self.bounds.joined(other.bounds);
        Bin {
            count: self.count + other.count,
            bounds,
        }
    }

    // One triangle more, whose box is given.
    #[tactic(auto, using(aabb::proofs::Running::union_by), unfolding(crate::specs::Bins::with_box))]
    pub fn with(self, b: Aabb) -> Bin
        requires { (self.count ≤ most_triangles) × Clear self.bounds }
        ensures { result ≡ with_box self b }
    {
        let bounds = self.bounds.joined(b);
        Bin {
            count: self.count + 1,
            bounds,
        }
    }
}

// The first of some bins in a row: its number, as a whole number and as a float.
#[derive(Clone, Copy)]
pub struct Row {
    pub first: usize,
    pub low: f64,
}

// Of twice `half` bins in a row that have the bin of x, the half that has it. `width` is `half` as a float.
#[tactic(auto, using(crate::proofs::Halves::bin_from, crate::proofs::Halves::bin_under, crate::proofs::Halves::boundary))]
fn upper(row: Row, half: usize, width: f64, x: f64) -> Row
    requires { (row.low ≡ whole row.first) × (width ≡ whole half) × (0 < half) × (row.first + half ≤ 15) × (row.first ≤ bin_of 15 x) × (bin_of 15 x < row.first + half + half) }
    ensures { (result.low ≡ whole result.first) × (result.first ≤ row.first + half) × (result.first ≤ bin_of 15 x) × (bin_of 15 x < result.first + half) }
{
    let low = row.low + width;
    if low <= x {
        return Row {
            first: row.first + half,
            low,
        };
    }
    row
}

// The bin of x (rule S4) by four halvings: what the cast to `usize` of the Rust and its `min` come to, worked out.
pub fn bin_of(x: f64) -> usize
    ensures { (result ≡ bin_of 15 x) × (result ≤ 15) }
{
    let sixteen = Row { first: 0, low: 0.0 };
    let eight = upper(sixteen, 8, 8.0, x);
    let four = upper(eight, 4, 4.0, x);
    let two = upper(four, 2, 2.0, x);
    let one = upper(two, 1, 1.0, x);
    one.first
}

// One triangle more in the bin of x, whose box is given.
pub fn put(bins: &mut [Bin; 16], x: f64, b: Aabb)
    requires { Held most_triangles bins.old }
    ensures { bins.new ≡ with_one bins.old (bin_of 15 x) b }
{
    let k = bin_of(x);
    bins[k] = bins[k].with(b);
}

// The empty bins of the three axes are filled in one pass over the range. How far a centroid is from the first bin of an axis, in bins, tells its bin.
pub fn fill(triangles: &[f64], index: &[u32], min: Vec3, scale: Vec3, bins: &mut Axes)
    requires numbered { Numbered triangles.now index.now }
    requires index_len_bound { length index.now ≤ most_triangles }
    requires empty { (bins.old.x ≡ replicate 16 no_bin) × (bins.old.y ≡ replicate 16 no_bin) × (bins.old.z ≡ replicate 16 no_bin) }
    ensures held { Held most_triangles bins.new.x × Held most_triangles bins.new.y × Held most_triangles bins.new.z }
    ensures on_x { bins.new.x ≡ filled triangles.now 0 min.x scale.x (replicate 16 no_bin) index.now }
    ensures on_y { bins.new.y ≡ filled triangles.now 1 min.y scale.y (replicate 16 no_bin) index.now }
    ensures on_z { bins.new.z ≡ filled triangles.now 2 min.z scale.z (replicate 16 no_bin) index.now }
{
    for i in index {
        let t = range::corners(triangles, *i);
        let c = t.centroid();
        let b = range::box_of(t);
        put(&mut bins.x, (c.x - min.x) * scale.x, b);
        put(&mut bins.y, (c.y - min.y) * scale.y, b);
        put(&mut bins.z, (c.z - min.z) * scale.z, b);
    }
}
