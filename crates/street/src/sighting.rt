// A hit in the house, taken to the world, and which of two is kept: the inner part of `BvhScene::intersect` of scene.rs. At an equal t the lower
// placement is kept, and a normal of length zero stays as it is.
ghost use Rattle.std.specs.Prelude.{◌≡◌};
ghost use Rattle.street.specs.Sighting.{unit, world_t, world_hit, ahead, better};

use crate::rows;
use crate::rows::Matrix;
use aabb::{Ray, Vec3};
use triangle::Hit;

// What a ray finds in a street: t is (point - origin) · direction; the normal has length 1, or is zero; where on the triangle it is and whether that is its front,
// as the house has them; the house's triangle, the placement, the triangle's material.
#[derive(Clone, Copy)]
pub struct Sight {
    pub t: f64,
    pub point: Vec3,
    pub normal: Vec3,
    pub u: f64,
    pub v: f64,
    pub front: bool,
    pub triangle: u32,
    pub placement: u32,
    pub material: u32,
}

// The hit of a placement, given in the house's numbers; none where its t is not above 1e-5.
#[tactic(auto, unfolding(crate::specs::Sighting::world_hit, crate::specs::Sighting::counted, crate::specs::Sighting::sight_of))]
pub fn world_hit(
    matrix: Matrix,
    inverse: Matrix,
    ray: Ray,
    hit: Hit,
    placement: u32,
) -> Option<Sight>
    ensures { result ≡ world_hit matrix inverse ray hit placement }
{
    let point = matrix.point(hit.point);
    let normal = unit(inverse.normal(hit.normal));
    let t = world_t(ray, point);
    if t > 1e-5 {
        return Some(Sight {
            t,
            point,
            normal,
            u: hit.u,
            v: hit.v,
            front: hit.front,
            triangle: hit.triangle,
            placement,
            material: hit.material,
        });
    }
    None
}

// (point - origin) · direction
#[tactic(auto, unfolding(crate::specs::Sighting::world_t))]
fn world_t(ray: Ray, point: Vec3) -> f64
    ensures { result ≡ world_t ray point }
{
    point.minus(ray.origin).dot(ray.direction)
}

// Divided by its length; one of length zero stays.
#[tactic(auto, unfolding(crate::specs::Sighting::unit))]
fn unit(n: Vec3) -> Vec3
    ensures { result ≡ unit n }
{
    let size = rows::length(n);
    if size == 0.0 {
        return n;
    }
    n.divided(size)
}

// Whether the new hit replaces the best: its t is smaller, or equal and its placement lower.
#[tactic(auto, unfolding(crate::specs::Sighting::ahead))]
fn is_ahead(new: Sight, best: Sight) -> bool
    ensures { result ≡ ahead new best }
{
    new.t < best.t || new.t == best.t && new.placement < best.placement
}

// The better of what was seen and what is new.
#[tactic(auto, unfolding(crate::specs::Sighting::better))]
pub fn kept(best: Option<Sight>, new: Option<Sight>) -> Option<Sight>
    ensures { result ≡ better best new }
{
    match (best, new) {
        (_, None) => best,
        (None, _) => new,
        (Some(b), Some(n)) => { if is_ahead(n, b) { new } else { best } }
    }
}
