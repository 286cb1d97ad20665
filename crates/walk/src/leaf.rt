// A leaf's triangles, in two passes: first whatever refuses an entry, 10 or 5, then every test. A refusal discards what the tests found, so
// the answers are those of one pass. Each function takes the two lists that it needs, and not the scene: its contract names no more.
ghost use Rattle.std.specs.Prelude.{◌≡◌, ◌+◌, ◌<◌, ◌≤◌, ◌^◌, length};
ghost use Rattle.walk.specs.inner.Turns.{scan, open_leaf};
ghost use Rattle.walk.specs.inner.State.{verdict, nearest_of};

use crate::tally;
use crate::tally::{Met, Tally};
use crate::turn::Turn;
use aabb::Ray;
use lent::{Reason, Refused};
use tree::Node;

// Refused at the first entry that is n or more (10) or whose triangle isn't admitted (5), of `count` entries from place `first` on.
pub fn judge(triangles: &[f64], index: &[u32], first: usize, count: usize) -> Result<(), Refused>
    requires { first + count ≤ length index.now }
    ensures { result ≡ verdict triangles.now index.now count first }
{
    let n = triangles.len() / 12;
    for place in first..first + count {
        let number = index[place] as usize;
        if n <= number {
            return Err(Refused {
                reason: Reason::BadEntry,
                at: place,
            });
        }
        if !triangle::admitted_at(triangles, number) {
            return Err(Refused {
                reason: Reason::BadTriangle,
                at: number,
            });
        }
    }
    Ok(())
}

// The hit so far, after the test of each of `count` entries from place `first` on.
pub fn nearest(
    triangles: &[f64],
    index: &[u32],
    ray: Ray,
    first: usize,
    count: usize,
    best: Option<Met>,
) -> Option<Met>
    requires { first + count ≤ length index.now }
    ensures { result ≡ nearest_of triangles.now index.now ray count first best }
{
    let mut found = best;
    for place in first..first + count {
        found = tally::after(triangles, ray, index[place], found);
    }
    found
}

// The leaf's entries, each counted as one test.
pub fn scan(
    triangles: &[f64],
    index: &[u32],
    ray: Ray,
    first: usize,
    count: usize,
    a: Tally,
) -> Result<Turn, Refused>
    requires { (first + count ≤ length index.now) × (count < 2 ^ 32) × (a.triangles < 2 ^ 60) }
    ensures { result ≡ scan triangles.now index.now ray count first a }
{
    judge(triangles, index, first, count)?;
    let nearest = nearest(triangles, index, ray, first, count, a.nearest);
    Ok(Turn::Down(Tally {
        boxes: a.boxes,
        triangles: a.triangles + count as u64,
        nearest,
    }))
}

// A leaf whose box is passed.
#[tactic(auto, unfolding(crate::specs::inner::Turns::open_leaf))]
pub fn open(
    triangles: &[f64],
    index: &[u32],
    ray: Ray,
    i: u32,
    x: Node,
    a: Tally,
) -> Result<Turn, Refused>
    requires { a.triangles < 2 ^ 60 }
    ensures { result ≡ open_leaf triangles.now index.now ray i x a }
{
    let first = x.left_or_first as usize;
    let count = x.count as usize;
    if index.len() < first + count {
        return Err(Refused {
            reason: Reason::BadNode,
            at: i as usize,
        });
    }
    scan(triangles, index, ray, first, count, a)
}
