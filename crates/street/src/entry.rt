// An entry of a leaf of the top tree: the placement that it names, with its local ray and its house's walk.
ghost use Rattle.std.specs.Prelude.{◌≡◌, ◌+◌, ◌≤◌, ◌<◌, length};
ghost use Rattle.walk.specs.Steps.{entries};
ghost use Rattle.street.specs.Walking.{at_placement, placement_entry};
ghost use Rattle.street.specs.inner.Entries.{went, sighted, Sheltered};

use crate::lists::Street;
use crate::rows::Matrix;
use crate::sighting;
use crate::sighting::Sight;
use aabb::Ray;
use lent::{Reason, Refused};
use triangle::Hit;
use walk::Answer;

// A leaf's entries, `count` of them from place `first` on, one after the other: what is seen so far, or a refusal.
#[tactic(auto, unfolding(crate::specs::inner::Entries::went), using(crate::proofs::LeafEntries::entries_all, crate::proofs::LeafEntries::entries_over, crate::proofs::LeafEntries::entries_go, crate::proofs::LeafEntries::entries_stop))]
pub fn leaf(
    street: &Street,
    index: &[u32],
    ray: Ray,
    first: usize,
    count: usize,
    best: Option<Sight>,
) -> Result<Option<Sight>, Refused>
    requires { (first + count ≤ length index.now) × Sheltered street.now.house }
    ensures { went result ≡ entries (placement_entry street.now index.now ray) count first best }
{
    let mut found = best;
    for place in first..first + count {
        found = at(street, index, ray, place, found)?;
    }
    Ok(found)
}

// The entry at a place of the index list: 10 where it names no placement.
#[tactic(auto, unfolding(crate::specs::Walking::placement_entry, crate::specs::inner::Entries::went))]
fn at(
    street: &Street,
    index: &[u32],
    ray: Ray,
    place: usize,
    best: Option<Sight>,
) -> Result<Option<Sight>, Refused>
    requires { (place < length index.now) × Sheltered street.now.house }
    ensures { went result ≡ placement_entry street.now index.now ray place best }
{
    let k = index[place];
    if street.matrices.len() / 16 <= k as usize {
        return Err(Refused {
            reason: Reason::BadEntry,
            at: place,
        });
    }
    placement(street, ray, k, best)
}

// Placement k, with the best so far, over a house whose lists were looked at.
#[tactic(auto, unfolding(crate::specs::Walking::at_placement, crate::specs::Walking::with_local, crate::specs::Walking::with_told, crate::specs::Walking::with_found, walk::specs::Answer::told, crate::specs::inner::Entries::went, crate::specs::inner::Entries::sighted), using(walk::proofs::Entering::entered))]
pub fn placement(
    street: &Street,
    ray: Ray,
    k: u32,
    best: Option<Sight>,
) -> Result<Option<Sight>, Refused>
    requires { Sheltered street.now.house }
    ensures { went result ≡ at_placement street.now ray k best }
{
    let Some(local) = Matrix::read(street.inverses, k as usize).transform_ray(ray) else {
        return Ok(best);
    };
    if !local.admitted() {
        return Err(Refused {
            reason: Reason::BadRay,
            at: k as usize,
        });
    }
    match walk::walk(&street.house, local) {
        Answer::Refused(refused) => Err(refused),
        Answer::Missed { .. } => Ok(best),
        Answer::Struck { hit, .. } => {
            Ok(found(street.matrices, street.inverses, ray, k, hit, best))
        }
    }
}

// The better of what was seen and the hit of placement k.
#[tactic(auto, unfolding(crate::specs::inner::Entries::sighted))]
fn found(
    matrices: &[f64],
    inverses: &[f64],
    ray: Ray,
    k: u32,
    hit: Hit,
    best: Option<Sight>,
) -> Option<Sight>
    ensures { result ≡ sighted matrices.now inverses.now ray k hit best }
{
    let matrix = Matrix::read(matrices, k as usize);
    let inverse = Matrix::read(inverses, k as usize);
    let new = sighting::world_hit(matrix, inverse, ray, hit, k);
    sighting::kept(best, new)
}
