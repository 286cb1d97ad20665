// The placements of a street: each a matrix (house to world) and its inverse, in two lent lists, and what is asked of them before anything else.
ghost use Rattle.std.specs.Prelude.{◌≡◌};
ghost use Rattle.lent.specs.Ladder.{first_failed};
ghost use Rattle.lent.specs.Refusals.{refusal_of};
ghost use Rattle.street.specs.Making.{good_at, near_at, lowest, placement_checks};

use crate::placing;
use crate::rows::Matrix;
use aabb::Aabb;
use lent::{Reason, Refused};

// Whether the two lists will do: 23, 24.
#[tactic(auto, unfolding(crate::specs::Making::misplaced, lent::specs::Ladder::first_failed))]
pub fn judge(matrices: &[f64], inverses: &[f64]) -> Result<(), Refused>
    ensures { refusal_of result ≡ first_failed (placement_checks matrices.now inverses.now) }
{
    let m = matrices.len() / 16;
    if matrices.len() != inverses.len() || matrices.len() % 16 != 0 || lent::MOST_PLACEMENTS < m {
        return Err(Refused {
            reason: Reason::BadPlacements,
            at: 0,
        });
    }
    match first_bad(matrices, inverses, m) {
        Some(at) => Err(Refused {
            reason: Reason::BadMatrix,
            at,
        }),
        None => Ok(()),
    }
}

// The lowest placement with a bad matrix.
fn first_bad(matrices: &[f64], inverses: &[f64], m: usize) -> Option<usize>
    ensures { result ≡ lowest (good_at matrices.now inverses.now) 0 m }
{
    (0..m).find(|i| !good_at(matrices, inverses, *i))
}

// Whether both matrices of placement i are good.
#[tactic(auto, unfolding(crate::specs::Making::good_at))]
fn good_at(matrices: &[f64], inverses: &[f64], i: usize) -> bool
    ensures { result ≡ good_at matrices.now inverses.now i }
{
    Matrix::read(matrices, i).good() && Matrix::read(inverses, i).good()
}

// The lowest placement whose world box is not finite and usable.
pub fn first_far(matrices: &[f64], root: Aabb, m: usize) -> Option<usize>
    ensures { result ≡ lowest (near_at matrices.now root) 0 m }
{
    (0..m).find(|i| !near_at(matrices, root, *i))
}

// Whether the world box of placement i is finite and usable.
#[tactic(auto, unfolding(crate::specs::Making::near_at))]
fn near_at(matrices: &[f64], root: Aabb, i: usize) -> bool
    ensures { result ≡ near_at matrices.now root i }
{
    placing::world_at(matrices, root, i).bounded()
}
