// The choice of a split by sixteen bins an axis (rules S1 to S9): `find_best_split` of the Rust, an inner part here.
ghost use Rattle.std.specs.Prelude.{◌≡◌, List, ℕ, ◌≤◌, ◌<◌, length, replicate, Float};
ghost use Rattle.std.specs.Float.Ieee.{div, sub};
ghost use Rattle.std.specs.Float.{binary64};
ghost use Rattle.float.specs.Number.{sixteen};
ghost use Rattle.aabb.specs.Vector.{along};
ghost use Rattle.lent.specs.Limits.{most_triangles};
ghost use Rattle.builder.specs.Bins.{no_bin, filled};
ghost use Rattle.builder.specs.Range.{Numbered};
ghost use Rattle.builder.specs.inner.Held.{Held};
ghost use Rattle.builder.specs.Choice.{weight, better_of, sweep_from, try_axis, best_of_axes, best_split};

use crate::bins;
use crate::bins::{Axes, Bin};
use crate::range::Hull;
use aabb::{Aabb, Vec3};

// Where a range is split; the Rust's `SplitDecision` is an `Option` of it here, none where it makes a leaf.
#[derive(Clone, Copy, Debug)]
pub struct Split {
    pub axis: usize,
    pub position: f64,
}

// The best split so far, with its cost.
#[derive(Clone, Copy)]
pub struct Best {
    pub cost: f64,
    pub axis: usize,
    pub position: f64,
}

// (area·n)·1.5
#[tactic(auto, unfolding(crate::specs::Choice::weight))]
pub fn weight(b: Bin) -> f64
    ensures { result ≡ weight b }
{
    let n = b.count as f64;
    let area = b.bounds.surface_area();
    area * n * Aabb::SAH_INTERSECTION_COST
}

// An axis on trial: where its bins start, how wide each is, and the area that a cost is measured by.
#[derive(Clone, Copy)]
pub struct Trial {
    pub axis: usize,
    pub min: f64,
    pub width: f64,
    pub parent: f64,
}

// What is asked of the bins to the right of a boundary: how many triangles they have, and their weight.
#[derive(Clone, Copy)]
pub struct Side {
    pub count: u32,
    pub weight: f64,
}

// The boundary with `i` bins to its left, against the best so far.
#[tactic(auto, using(crate::proofs::Choosing::boundary))]
pub fn better(best: Best, l: Bin, right: Side, i: u8, on: Trial) -> Best
    ensures { (r : Bin) → r.count ≡ right.count → weight r ≡ right.weight → result ≡ better_of best l r i on.axis on.min on.width on.parent }
{
    if l.count == 0 || right.count == 0 {
        return best;
    }
    let cost = Aabb::SAH_TRAVERSAL_COST + (weight(l) + right.weight) / on.parent;
    if cost < best.cost {
        return Best {
            cost,
            axis: on.axis,
            position: on.min + (i as f64) * on.width,
        };
    }
    best
}

// The fifteen boundaries of an axis, from left to right; what is to the right of each is worked out before, from the right end.
pub fn sweep(bins: &[Bin; 16], best: Best, on: Trial) -> Best
    requires { Held most_triangles bins.now }
    ensures { result ≡ sweep_from on.axis on.min on.width on.parent best no_bin bins.now 0 }
{
    let mut sides = [Side {
        count: 0,
        weight: 0.0,
    }; 16];
    let mut run = Bin::none();
    for k in (1..16).rev() {
        run = run.joined(bins[k]);
        sides[k] = Side {
            count: run.count,
            weight: weight(run),
        };
    }
    let mut left = Bin::none();
    let mut most = best;
    for i in 0..15u8 {
        left = left.joined(bins[i as usize]);
        let at = i + 1;
        most = better(most, left, sides[at as usize], at, on);
    }
    most
}

// An axis whose bins are filled.
#[tactic(auto, using(crate::proofs::Choosing::try_go, crate::proofs::Choosing::try_skip))]
pub fn try_axis(bins: &[Bin; 16], axis: usize, centroids: Aabb, parent: f64, best: Best) -> Best
    requires { Held most_triangles bins.now }
    ensures { (mesh : List Float) (range : List ℕ) → bins.now ≡ filled mesh axis (along axis centroids.min) (div binary64 sixteen (sub binary64 (along axis centroids.max) (along axis centroids.min))) (replicate 16 no_bin) range → result ≡ try_axis mesh range centroids axis parent best }
{
    let min = centroids.min.along(axis);
    let max = centroids.max.along(axis);
    let span = max - min;
    if span < 1e-6 {
        return best;
    }
    let width = 1.0 / scale(span);
    let on = Trial {
        axis,
        min,
        width,
        parent,
    };
    sweep(bins, best, on)
}

// 16/span
#[tactic(auto, using(crate::proofs::Choosing::scale_is))]
fn scale(span: f64) -> f64
    ensures { result ≡ div binary64 sixteen span }
{
    (Aabb::SAH_BINS as f64) / span
}

// 16/span of each axis.
#[tactic(auto, using(crate::proofs::Choosing::scale_on))]
fn scales(centroids: Aabb) -> Vec3
    ensures { (a : ℕ) → a < 3 → along a result ≡ div binary64 sixteen (sub binary64 (along a centroids.max) (along a centroids.min)) }
{
    let span = centroids.extent();
    Vec3 {
        x: scale(span.x),
        y: scale(span.y),
        z: scale(span.z),
    }
}

// The best of the three axes, one after the other: their bins are filled in one pass. It starts at the cost of a leaf.
fn best_of_axes(triangles: &[f64], index: &[u32], centroids: Aabb, parent: f64, leaf: f64) -> Best
    requires numbered { Numbered triangles.now index.now }
    requires index_len_bound { length index.now ≤ most_triangles }
    ensures { result ≡ best_of_axes triangles.now index.now centroids parent leaf }
{
    let none = Bin::none();
    let mut bins = Axes {
        x: [none; 16],
        y: [none; 16],
        z: [none; 16],
    };
    bins::fill(
        triangles,
        index,
        centroids.min,
        scales(centroids),
        &mut bins,
    );
    let start = Best {
        cost: leaf,
        axis: 0,
        position: 0.0,
    };
    let x = try_axis(&bins.x, 0, centroids, parent, start);
    let y = try_axis(&bins.y, 1, centroids, parent, x);
    try_axis(&bins.z, 2, centroids, parent, y)
}

// The best split of the range whose boxes are given, or none.
pub fn find_best_split(triangles: &[f64], index: &[u32], hull: Hull) -> Option<Split>
    requires numbered { Numbered triangles.now index.now }
    requires index_len_bound { length index.now ≤ most_triangles }
    ensures { result ≡ best_split triangles.now index.now hull.bounds hull.centroids }
{
    if index.len() <= Aabb::MAX_LEAF_PRIMITIVES {
        return None;
    }
    let parent = hull.bounds.surface_area();
    if parent <= 1e-12 {
        return None;
    }
    let count = index.len() as u32;
    let leaf = (count as f64) * Aabb::SAH_INTERSECTION_COST;
    let best = best_of_axes(triangles, index, hull.centroids, parent, leaf);
    if best.cost < leaf {
        return Some(Split {
            axis: best.axis,
            position: best.position,
        });
    }
    None
}
