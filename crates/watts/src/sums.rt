// The watts of a sky's places, summed by outcome (rules Q1 and Q2).
ghost use Rattle.std.specs.Prelude.{◌≡◌, ◌*◌, ◌≤◌, ◌<◌, ◌^◌, length};
ghost use Rattle.lent.specs.Limits.{most_rays};
ghost use Rattle.watts.specs.Watts.{weighed, figures, outcome_at};

// Watts of the rays that hit, that miss, that are refused, and of all.
#[derive(Clone, Copy)]
pub struct Figures {
    pub shaded: u64,
    pub open: u64,
    pub refused: u64,
    pub total: u64,
}

// One ray more, of this outcome (a number, as it stands in the answer room that C reads) and weight.
#[tactic(auto, unfolding(crate::specs::Watts::weighed))]
fn weighed(sums: Figures, outcome: u64, weight: u32) -> Figures
    requires { (sums.shaded < 2 ^ 62) × (sums.«open» < 2 ^ 62) × (sums.refused < 2 ^ 62) × (sums.total < 2 ^ 62) }
    ensures { result ≡ weighed sums outcome weight }
{
    let watts = u64::from(weight);
    let total = sums.total + watts;
    if outcome == 100 {
        Figures {
            shaded: sums.shaded + watts,
            total,
            ..sums
        }
    } else if outcome == 0 {
        Figures {
            open: sums.open + watts,
            total,
            ..sums
        }
    } else {
        Figures {
            refused: sums.refused + watts,
            total,
            ..sums
        }
    }
}

// The figures of the first n places, with the weights of their rays. No sum wraps: n weights below 2^32 are below 2^52 together.
#[tactic(auto, unfolding(crate::specs::Watts::figures))]
pub fn summed(told: &[u64], weights: &[u32], n: usize) -> Figures
    requires { (n * 5 ≤ length told.now) × (n ≤ length weights.now) × (n ≤ most_rays) }
    ensures { result ≡ figures (outcome_at told.now) weights.now n }
{
    let mut sums = Figures {
        shaded: 0,
        open: 0,
        refused: 0,
        total: 0,
    };
    for k in 0..n {
        sums = weighed(sums, told[k * 5], weights[k]);
    }
    sums
}
