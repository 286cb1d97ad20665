// What a walk has counted and found so far. Of the hit only t and the triangle's number are carried: the rest is made once, at the end.
ghost use Rattle.std.specs.Prelude.{◌≡◌, ◌<◌, ◌^◌};
ghost use Rattle.walk.specs.Walk.{replaces, nearer, after, boxed};

use aabb::Ray;
use triangle::Corners;

// The triangle that is met first of those tested so far, and where.
#[derive(Clone, Copy)]
pub struct Met {
    pub t: f64,
    pub number: u32,
}

// The two counts, of box tests and of triangle tests, and the hit so far.
#[derive(Clone, Copy)]
pub struct Tally {
    pub boxes: u64,
    pub triangles: u64,
    pub nearest: Option<Met>,
}

// Whether triangle `number`, found at t, replaces the hit so far: at a smaller t it does, and at an equal t if its number is lower.
#[tactic(auto, unfolding(crate::specs::Walk::replaces))]
pub fn replaces(best: Option<Met>, number: u32, t: f64) -> bool
    ensures { result ≡ replaces best number t }
{
    match best {
        None => t < float::infinity(),
        Some(met) => {
            if number < met.number {
                t <= met.t
            } else {
                t < met.t
            }
        }
    }
}

// The nearer of the hit so far and what the test of triangle `number` found.
#[tactic(auto, unfolding(crate::specs::Walk::nearer))]
pub fn nearer(best: Option<Met>, number: u32, found: Option<f64>) -> Option<Met>
    ensures { result ≡ nearer best number found }
{
    match found {
        Some(t) if replaces(best, number, t) => Some(Met { t, number }),
        _ => best,
    }
}

// The hit so far, after the test of one triangle more. `Corners::distance` does the same two calls; made here, both are compiled into the walk's loop.
#[tactic(auto, using(triangle::proofs::Steps::distance_crossed), unfolding(crate::specs::Walk::after, triangle::specs::Meeting::distance))]
pub fn after(triangles: &[f64], ray: Ray, number: u32, best: Option<Met>) -> Option<Met>
    ensures { result ≡ after triangles.now ray number best }
{
    let found = Corners::read(triangles, number as usize)
        .crossing(ray)
        .distance();
    nearer(best, number, found)
}

impl Tally {
    // One box test more.
    #[tactic(auto, unfolding(crate::specs::Walk::boxed))]
    pub fn boxed(self) -> Tally
        requires { self.boxes < 2 ^ 60 }
        ensures { result ≡ boxed self }
    {
        Tally {
            boxes: self.boxes + 1,
            ..self
        }
    }
}
