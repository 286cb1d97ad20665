// Whether a tree that was built elsewhere can be walked as one of our own (section J of docs/RULES.md). The Rust has none of it: it walks what it built.
#![tactic(auto)]

mod rejection; // rejection.rt: why lists are not accepted
mod nodes; // nodes.rt: condition (i)
mod parents; // parents.rt: conditions (ii) and (iii)
mod cover; // cover.rt: condition (iv)
mod list; // list.rt: condition (v)
mod boxes; // boxes.rt: condition (vi)

ghost use Rattle.std.specs.Prelude.{◌≡◌, ◌+◌, ◌<◌, ◌≤◌, length};
ghost use Rattle.lent.specs.Limits.{most_nodes};
ghost use Rattle.lent.specs.Ladder.{triangle_count, first_failed};
ghost use Rattle.lent.specs.Refusals.{refusal_of};
ghost use Rattle.tree.specs.Lent.{node_count};
ghost use Rattle.accept.specs.Conditions.{foreign};
ghost use Rattle.accept.specs.Accept.{judged, ruling, outcome, checks, accepted};

use lent::{Reason, Refused};
pub use rejection::{Condition, Rejection};
use tree::Lists;

// The conditions in their order. What is written stays in the work room: one slice, since C lends one, used anew for each condition. A condition takes the lists
// that it reads and no others.
fn judge(triangles: &[f64], tree: &Lists, work: &mut [u32]) -> Result<(), Rejection>
    requires { (0 < node_count tree.now.links) × (node_count tree.now.links ≤ most_nodes) × (node_count tree.now.links + triangle_count triangles.now ≤ length work.old) }
    ensures work_len_unchanged { length work.new ≡ length work.old }
    ensures value { result ≡ judged (foreign triangles.now tree.now.index tree.now.boxes tree.now.links) }
{
    let n = triangles.len() / 12;
    Condition::Faultless.met(nodes::first_faulty(triangles, tree))?;
    let count = tree.links.len() / 3;
    work.fill(parents::NONE);
    parents::name_parents(tree.links, work);
    Condition::OneParent.met(parents::first_orphan(work, count))?;
    Condition::Reached.met(parents::first_unreached(work, count))?;
    Condition::Covered.met(cover::first_uncovered(tree.index.len(), tree.links, work))?;
    work.fill(list::UNSEEN);
    Condition::Permutation.met(list::first_misplaced(tree.index, n, work))?;
    Condition::Enclosed.met(boxes::first_loose(triangles, tree))
}

// What is refused before any condition is looked at.
#[tactic(auto, unfolding(crate::specs::Accept::checks, triangle::specs::Mesh::unadmitted, lent::specs::Ladder::first_failed))]
fn fitting(triangles: &[f64], tree: &Lists, room: usize) -> Result<(), Refused>
    ensures { refusal_of result ≡ first_failed (checks (foreign triangles.now tree.now.index tree.now.boxes tree.now.links) room) }
{
    let n = triangle::count(triangles)?;
    if tree::misfit(tree.boxes, tree.links) {
        return Err(Refused {
            reason: Reason::Misfit,
            at: 0,
        });
    }
    if room < tree.links.len() / 3 + n {
        return Err(Refused {
            reason: Reason::ShortRoom,
            at: 0,
        });
    }
    if let Some(at) = triangle::first_refused(triangles, n) {
        return Err(Refused {
            reason: Reason::BadTriangle,
            at,
        });
    }
    Ok(())
}

// Whether the lists hold a tree that promises what a built one does (rules J2 to J8), over admitted triangles. Refused, in this order: 1 triangles
// that are not in twelves; 2 more than 65,536 of them (at: how many); 8 no links, links not in threes, more than 131,071 nodes, or not six numbers of
// box for each; 16 a work room of less than one number for each node and each triangle; 5 a triangle isn't admitted (its number). Then it says the first
// condition that is broken, and where, which is 19. The whole work room is zero after acceptance or 19 and unchanged after any other refusal.
pub fn accept(triangles: &[f64], tree: &Lists, work: &mut [u32]) -> Result<(), Rejection>
    ensures { outcome (ruling result) work.new ≡ accepted (foreign triangles.now tree.now.index tree.now.boxes tree.now.links) work.old }
{
    fitting(triangles, tree, work.len())?;
    let verdict = judge(triangles, tree, work);
    work.fill(0);
    verdict
}
