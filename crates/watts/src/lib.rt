// The watts of a sky of rays (rules Q1 to Q4): the sky's call with a weight for each ray, and the watts that are shaded, open and refused.
// The Rust has no counterpart.
#![tactic(auto)]

mod fraction; // fraction.rt: the share, in lowest terms
mod sums; // sums.rt: the four sums

ghost use Rattle.std.specs.Prelude.{◌≡◌};
ghost use Rattle.lent.specs.Ladder.{first_failed};
ghost use Rattle.lent.specs.Refusals.{refusal_of};
ghost use Rattle.watts.specs.Watts.{counted, outcome, weight_checks, watts};

pub use fraction::{Terms, share};
use lent::{Reason, Refused};
pub use sums::Figures;
use tree::Lent;

// The four figures, in watts, and shaded over shaded and open together.
#[derive(Clone, Copy)]
pub struct Report {
    pub figures: Figures,
    pub share: Terms,
}

// Refusals of so many weights for so many rays: 27 they differ in number; 28 more than 1,048,576 rays.
#[tactic(auto, unfolding(lent::specs::Ladder::first_failed))]
fn weighable(weights: usize, rays: usize) -> Result<(), Refused>
    ensures { refusal_of result ≡ first_failed (weight_checks weights rays) }
{
    if weights != rays {
        return Err(Refused {
            reason: Reason::Unweighed,
            at: 0,
        });
    }
    if lent::MOST_RAYS < rays {
        return Err(Refused {
            reason: Reason::CrowdedRays,
            at: 0,
        });
    }
    Ok(())
}

// `sky::sky` over rays that each have a weight, in whole watts. It fills the same places, and answers shaded watts (the weights of the rays
// that hit), open watts (that miss), refused watts (any other outcome), total watts (all weights), and shaded over shaded and open together
// in lowest terms, 0/1 when those are 0. Shaded, open and refused are total together, and below 2^52. The whole call is refused, in this
// order, and then writes nothing: as `sky::judge` says; 27 weights and rays differ in number; 28 more than 1,048,576 rays.
#[tactic(auto, using(lent::proofs::Ladder::further), unfolding(crate::specs::Watts::watts, crate::specs::Watts::watts_checks, lent::specs::Ladder::unless, lent::specs::Ladder::answered))]
pub fn watts(
    scene: &Lent,
    rays: &[f64],
    weights: &[u32],
    times: &mut [f64],
    told: &mut [u64],
) -> Result<Report, Refused>
    ensures { outcome (counted result) times.new told.new ≡ watts scene.now rays.now weights.now times.old told.old }
{
    let count = rays.len() / 6;
    sky::judge(&scene.mesh, rays, times, told)?;
    weighable(weights.len(), count)?;
    sky::sky(scene, rays, times, told)?;
    let figures = sums::summed(told, weights, count);
    let share = share(figures.shaded, figures.open);
    Ok(Report { figures, share })
}
