// Streets from one house: placements of one mesh, each a matrix and its inverse, and the top tree over them: the making of `BvhScene` in scene.rs.
// The top tree is the tree of the proxies, one triangle a placement; its index list names the placements. (The Rust loses that list.)
#![tactic(auto)]

pub mod rows; // rows.rt: matrices, and the local ray
mod placing; // placing.rt: world boxes and proxies
mod placements; // placements.rt: what is asked of the placements
mod proxies; // proxies.rt: the proxies, written
mod sighting; // sighting.rt: a hit in the world
mod lists; // lists.rt: what a caller lends for a walk
mod entry; // entry.rt: an entry of a leaf of the top tree

ghost use Rattle.std.specs.Prelude.{◌≡◌, ◌*◌, ◌≤◌, length};
ghost use Rattle.builder.specs.Reply.{reply};
ghost use Rattle.builder.specs.Build.{outcome as top};
ghost use Rattle.street.specs.Making.{placement_count, proxies as proxies_of, outcome, raised, made};

use aabb::Aabb;
use builder::Built;
use lent::{Reason, Refused};
pub use rows::{Matrix, Row};
pub use sighting::Sight;

// The top tree of a street of m placements, each sixteen numbers by rows in `matrices` (house to world) and in `inverses`; of `house`, the boxes of the
// house's tree, only the first is read. Answers as a build: on success the first 12m numbers of `proxies` hold a triangle for each placement, and `index`,
// `boxes` and `links` are written as a build of these m triangles writes them; room beyond stays. Refused, in this order: 23 more than 1,024 placements, or the
// lists not alike in length or not in sixteens; 24 a matrix is not good (at: the lowest such placement); 25 no root box, or it is not bounded; 26 a world box
// is not (at: the lowest such placement); 16 proxy room shorter than 12m; 3, 4 (at: R) and 6 as in a build of m triangles. 6 sets every number of all four
// rooms to zero; the others write nothing.
#[tactic(auto, unfolding(builder::specs::Reply::reply, crate::specs::Making::made, crate::specs::Making::made_over, lent::specs::Ladder::unless, lent::specs::Ladder::answered, lent::specs::Ladder::first_failed, crate::specs::Making::misplaced))]
pub fn make(
    matrices: &[f64],
    inverses: &[f64],
    house: &[f64],
    proxies: &mut [f64],
    index: &mut [u32],
    boxes: &mut [f64],
    links: &mut [u32],
) -> Result<Built, Refused>
    ensures { outcome (top (reply result) index.new boxes.new links.new) proxies.new ≡ made matrices.now inverses.now house.now proxies.old index.old boxes.old links.old }
{
    placements::judge(matrices, inverses)?;
    let root = Aabb::read(house, 0);
    if !root.bounded() {
        return Err(Refused {
            reason: Reason::BadHouse,
            at: 0,
        });
    }
    let m = matrices.len() / 16;
    if let Some(i) = placements::first_far(matrices, root, m) {
        return Err(Refused {
            reason: Reason::BadPlace,
            at: i,
        });
    }
    if proxies.len() < m * 12 {
        return Err(Refused {
            reason: Reason::ShortRoom,
            at: 0,
        });
    }
    if index.len() < m {
        return Err(Refused {
            reason: Reason::ShortIndex,
            at: 0,
        });
    }
    let all = builder::room(m as u32);
    if boxes.len() / 6 < all || links.len() / 3 < all {
        return Err(Refused {
            reason: Reason::ShortTree,
            at: all,
        });
    }
    raise(matrices, root, proxies, index, boxes, links)
}

// The proxies of the m placements are written, and the tree is built over them; where that is refused the proxies are cleared too.
// The rooms stay apart here and in `make`, as `build` takes three of them.
#[tactic(auto, unfolding(crate::specs::Making::raised), using(crate::proofs::Raising::front, crate::proofs::Raising::whole, crate::proofs::Raising::kept, crate::proofs::Raising::zeros))]
fn raise(
    matrices: &[f64],
    root: Aabb,
    proxies: &mut [f64],
    index: &mut [u32],
    boxes: &mut [f64],
    links: &mut [u32],
) -> Result<Built, Refused>
    requires { placement_count matrices.now * 12 ≤ length proxies.old }
    ensures { outcome (top (reply result) index.new boxes.new links.new) proxies.new ≡ raised (proxies_of matrices.now root) proxies.old index.old boxes.old links.old }
{
    let m = matrices.len() / 16;
    proxies::write(matrices, root, proxies, m);
    let built = builder::build(&proxies[0..m * 12], index, boxes, links);
    if built.is_err() {
        builder::clear_floats(proxies);
    }
    built
}
