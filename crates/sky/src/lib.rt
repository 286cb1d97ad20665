// A sky of rays (rules K1 to K4): each ray's walk, told in lent answer room, one place a ray. The Rust casts its rays one by one; this has no
// counterpart there.
#![tactic(auto)]

ghost use Rattle.std.specs.Prelude.{◌≡◌, ◌++◌, ◌+◌, ◌*◌, ◌≤◌, length, drop};
ghost use Rattle.lent.specs.Ladder.{first_failed};
ghost use Rattle.lent.specs.Flat.{put as written, records};
ghost use Rattle.lent.specs.Refusals.{refusal_of};
ghost use Rattle.walk.specs.Answer.{told as answered};
ghost use Rattle.sky.specs.Sky.{ray_count, place_of, told_of, times_of, times_for, told_for, filling, sky_checks, sky};

use aabb::Ray;
use lent::{Reason, Refused};
use tree::{Lent, Mesh};
use walk::Answer;

// What one place holds (rule K2), in numbers, since C reads them: 0 for a miss, 100 for a hit, else the refusal number; which triangle, or where it was refused; t; u and
// v; the box tests and the triangle tests; the material; zeros for what there isn't.
#[derive(Clone, Copy)]
pub struct Place {
    pub outcome: u64,
    pub which: u64,
    pub t: f64,
    pub u: f64,
    pub v: f64,
    pub boxes: u64,
    pub triangles: u64,
    pub material: u64,
}

// What the place of a walk's answer holds.
#[tactic(auto, unfolding(walk::specs::Answer::told, crate::specs::Sky::place_of, crate::specs::Sky::placed))]
fn place_of(answer: Answer) -> Place
    ensures { result ≡ place_of (answered answer) }
{
    match answer {
        Answer::Struck {
            hit,
            boxes,
            triangles,
        } => Place {
            outcome: 100,
            which: u64::from(hit.triangle),
            t: hit.t,
            u: hit.u,
            v: hit.v,
            boxes,
            triangles,
            material: u64::from(hit.material),
        },
        Answer::Missed { boxes, triangles } => Place {
            outcome: 0,
            which: 0,
            t: 0.0,
            u: 0.0,
            v: 0.0,
            boxes,
            triangles,
            material: 0,
        },
        Answer::Refused(Refused { reason, at }) => Place {
            outcome: u64::from(reason.number()),
            which: at as u64,
            t: 0.0,
            u: 0.0,
            v: 0.0,
            boxes: 0,
            triangles: 0,
            material: 0,
        },
    }
}

// Place k, written: three numbers of `times` and five of `told`.
fn put(times: &mut [f64], told: &mut [u64], k: usize, place: Place)
    requires { (k * 3 + 3 ≤ length times.old) × (k * 5 + 5 ≤ length told.old) }
    ensures times_after { times.new ≡ written 3 times.old k (times_of place) }
    ensures told_after { told.new ≡ written 5 told.old k (told_of place) }
{
    let at = k * 5;
    let from = k * 3;
    times[from..from + 3].copy_from_slice(&[place.t, place.u, place.v]);
    told[at..at + 5].copy_from_slice(&[
        place.outcome,
        place.which,
        place.boxes,
        place.triangles,
        place.material,
    ]);
}

// The places of the rays, in room that suffices.
#[tactic(auto, unfolding(lent::specs::Flat::records))]
fn fill(scene: &Lent, rays: &[f64], times: &mut [f64], told: &mut [u64])
    requires { (ray_count rays.now * 3 ≤ length times.old) × (ray_count rays.now * 5 ≤ length told.old) }
    ensures times_after { times.new ≡ records (times_for scene.now rays.now) (ray_count rays.now) ++ drop (ray_count rays.now * 3) times.old }
    ensures told_after { told.new ≡ records (told_for scene.now rays.now) (ray_count rays.now) ++ drop (ray_count rays.now * 5) told.old }
{
    for k in 0..rays.len() / 6 {
        let ray = Ray::read(rays, k);
        let answer = walk::walk(scene, ray);
        put(times, told, k, place_of(answer));
    }
}

// What `sky` would answer for these, with nothing written: the refusals of the whole call, in this order: 1 triangles that are not in twelves;
// 2 more than 65,536 of them; 18 not one material for each; 14 rays that are not in sixes; 13 times shorter than three a ray or told shorter than
// five. The first three are a walk's, too.
#[tactic(auto, unfolding(crate::specs::Sky::sky_checks, lent::specs::Ladder::first_failed))]
pub fn judge(mesh: &Mesh, rays: &[f64], times: &[f64], told: &[u64]) -> Result<(), Refused>
    ensures { refusal_of result ≡ first_failed (sky_checks mesh.now rays.now times.now told.now) }
{
    mesh.count()?;
    if rays.len() % 6 != 0 {
        return Err(Refused {
            reason: Reason::RaggedRays,
            at: 0,
        });
    }
    let count = rays.len() / 6;
    if times.len() < count * 3 || told.len() < count * 5 {
        return Err(Refused {
            reason: Reason::ShortAnswers,
            at: 0,
        });
    }
    Ok(())
}

// The walk of every ray, six numbers each: origin, direction. Place k is what `walk` answers for ray k: times[3k..3k+3] are t, u and v of a
// hit, else 0, and told[5k..5k+5] are the outcome (0 a miss, 100 a hit, else the refusal number), the triangle or the refusal's `at`, the box
// tests, the triangle tests and the triangle's material, 0 where none applies. A refused ray does not stop the rest; room beyond the rays stays. The whole call is
// refused as `judge` says, and then writes nothing.
#[tactic(auto, unfolding(crate::specs::Sky::sky, crate::specs::Sky::sky_checks, crate::specs::Sky::filled, lent::specs::Ladder::unless, lent::specs::Ladder::answered, lent::specs::Ladder::first_failed))]
pub fn sky(scene: &Lent, rays: &[f64], times: &mut [f64], told: &mut [u64]) -> Result<(), Refused>
    ensures { filling (refusal_of result) times.new told.new ≡ sky scene.now rays.now times.old told.old }
{
    judge(&scene.mesh, rays, times, told)?;
    fill(scene, rays, times, told);
    Ok(())
}
