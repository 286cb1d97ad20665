// The walk of one ray through one mesh: a port of `intersect_blas` of scene.rs, with the counts of the inner loop of cost.rs.
// Left out: the instances, their transforms and the top level. Added: every walk ends with a hit, a miss or a numbered refusal, on any lists,
// where the Rust panics (a 65th node pending) or never comes back (a tree that loops).
#![tactic(auto)]

mod tally; // tally.rt: the counts and the hit so far
mod pending; // pending.rt: the pending node numbers
mod turn; // turn.rt: how a step ends
mod leaf; // leaf.rt: a leaf's triangles
mod step; // step.rt: one step

ghost use Rattle.std.specs.Prelude.{◌≡◌, [], ◌∷◌, ◌<◌, ◌≤◌};
ghost use Rattle.tree.specs.Lent.{node_count};
ghost use Rattle.lent.specs.Limits.{most_nodes};
ghost use Rattle.walk.specs.Answer.{told};
ghost use Rattle.walk.specs.inner.State.{answer};
ghost use Rattle.walk.specs.Walk.{over, start, run, walk};

use aabb::{Aim, Ray};
use lent::{Reason, Refused};
use pending::Pending;
use tally::{Met, Tally};
use tree::{Lent, Mesh};
use triangle::{Hit, Triangle};
use turn::Turn;

// The walk's answer (rule W8), an enum of the three cases, as the customer asked: what was hit and both counts, the counts alone, or a refusal.
#[derive(Clone, Copy)]
pub enum Answer {
    Struck {
        hit: Hit,
        boxes: u64,
        triangles: u64,
    },
    Missed {
        boxes: u64,
        triangles: u64,
    },
    Refused(Refused),
}

// The answer of a walk that has no node pending any more.
#[tactic(auto, unfolding(crate::specs::Answer::told, crate::specs::Walk::over, crate::specs::Walk::hit_of))]
fn over(mesh: &Mesh, ray: Ray, a: Tally) -> Answer
    ensures { told result ≡ over mesh.now ray a }
{
    match a.nearest {
        None => Answer::Missed {
            boxes: a.boxes,
            triangles: a.triangles,
        },
        Some(Met { t, number }) => {
            let material = tree::word(mesh.materials, number as usize);
            let hit = Triangle::read(mesh.triangles, number as usize).hit(ray, t, number, material);
            Answer::Struck {
                hit,
                boxes: a.boxes,
                triangles: a.triangles,
            }
        }
    }
}

// The steps, from the root on.
fn run(scene: &Lent, ray: Ray) -> Result<Answer, Refused>
    requires { (0 < node_count scene.now.tree.links) × (node_count scene.now.tree.links ≤ most_nodes) }
    ensures { told (answer result) ≡ run scene.now ray (node_count scene.now.tree.links) (0 ∷ []) start }
{
    let mesh = &scene.mesh;
    let tree = &scene.tree;
    let nodes = tree.links.len() / 3;
    let aim = Aim::of(ray);
    let mut pending = Pending::root();
    // The last pending number, beside the state: a step need not wait for the array that was just copied.
    let mut last: u32 = 0;
    let mut a = Tally {
        boxes: 0,
        triangles: 0,
        nearest: None,
    };
    // A `while`: nothing is counted, it goes on until no node is pending.
    while 0 < pending.len {
        let besides = pending.len - 1;
        let i = last;
        if nodes <= a.boxes as usize {
            return Err(Refused {
                reason: Reason::Endless,
                at: i as usize,
            });
        }
        a = a.boxed();
        match step::visit(scene, aim, i, besides, a)? {
            Turn::Open { left, right } => {
                pending = pending.opened(left, right);
                last = left;
                continue;
            }
            Turn::Down(next) => {
                a = next;
            }
            Turn::Missed => {}
        }
        pending = pending.dropped();
        if 0 < besides {
            last = pending.nodes[besides - 1];
        }
    }
    Ok(over(mesh, ray, a))
}

// What can be told before any step, then the steps.
#[tactic(auto, using(tree::proofs::Fitted::fitting), unfolding(crate::specs::Walk::walk, crate::specs::Answer::told, lent::specs::Ladder::unless, lent::specs::Ladder::answered, lent::specs::Ladder::first_failed))]
fn checked(scene: &Lent, ray: Ray) -> Result<Answer, Refused>
    ensures { told (answer result) ≡ walk scene.now ray }
{
    let mesh = &scene.mesh;
    let tree = &scene.tree;
    mesh.count()?;
    if !ray.admitted() {
        return Err(Refused {
            reason: Reason::BadRay,
            at: 0,
        });
    }
    if tree::misfit(tree.boxes, tree.links) {
        return Err(Refused {
            reason: Reason::Misfit,
            at: 0,
        });
    }
    run(scene, ray)
}

// The nearest hit of the ray among the triangles of the leaves that it reaches, from node 0 on through boxes that it passes, at an equal t the
// one of the lowest number, or a miss, with the box tests and the triangle tests made; or a refusal (rules W1 to W5): 1 triangles that are not in
// twelves; 2 more than 65,536 of them (at: how many); 18 not one material for each; 7 the ray isn't admitted; 8 no links, links not in threes, more
// than 131,071 nodes, or not six numbers of box for each; then by steps 12 more box tests than nodes (at: the node), 9 a bad node (the node), 10 an index entry of n or more
// (its place), 5 a triangle that isn't admitted (its number), 11 more than 64 pending (the node). It writes nothing.
pub fn walk(scene: &Lent, ray: Ray) -> Answer
    ensures { told result ≡ walk scene.now ray }
{
    match checked(scene, ray) {
        Ok(answer) => answer,
        Err(refused) => Answer::Refused(refused),
    }
}
