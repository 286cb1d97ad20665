// The slab test (rules B8 to B12; `ray_aabb_slab_test` and `Aabb::intersect_ray` of the Rust). What of the ray is the same for every box
// is worked out once, in `Aim`: so a walk, which tests many boxes, runs the same test, `Aim::through`.
ghost use Rattle.std.specs.Prelude.{◌≡◌};
ghost use Rattle.aabb.specs.Slab.{sighted, aimed, sight_on, first, second, ahead, through, slab};

use crate::bounds::Aabb;
use crate::vector::Ray;

// The times at which a ray enters and leaves a box.
#[derive(Clone, Copy)]
pub struct Span {
    pub enter: f64,
    pub exit: f64,
}

// One axis of a ray: its origin there, 1/dir, and whether |dir| < 1e-12. (A flag beside numbers, not an enum: a flat axis needs the origin too, and the
// test asks the flag once.)
#[derive(Clone, Copy)]
pub struct Sight {
    pub origin: f64,
    pub inv: f64,
    pub flat: bool,
}

// A ray, and its three axes.
#[derive(Clone, Copy)]
pub struct Aim {
    pub ray: Ray,
    pub x: Sight,
    pub y: Sight,
    pub z: Sight,
}

impl Aabb {
    // Enter and exit times of the ray through the box, from 0 on, or none where it misses it.
    pub fn intersect_ray(self, ray: Ray) -> Option<Span>
        ensures { result ≡ slab ray self }
    {
        Aim::of(ray).through(self)
    }
}

impl Sight {
    #[tactic(auto, unfolding(crate::specs::Slab::sighted))]
    pub fn of(origin: f64, dir: f64) -> Sight
        ensures { result ≡ sighted origin dir }
    {
        Sight {
            origin,
            inv: 1.0 / dir,
            flat: float::magnitude(dir) < 1e-12,
        }
    }
}

impl Aim {
    // The ray, prepared.
    pub fn of(ray: Ray) -> Aim
        ensures { result ≡ aimed ray }
    {
        let x = Sight::of(ray.origin.x, ray.direction.x);
        let y = Sight::of(ray.origin.y, ray.direction.y);
        let z = Sight::of(ray.origin.z, ray.direction.z);
        Aim { ray, x, y, z }
    }

    // As `Vec3::along`, of another type: the choice by axis that document 01 names, and two lines a type are no plainer as a trait.
    #[tactic(auto, unfolding(crate::specs::Slab::sight_on))]
    fn along(self, axis: usize) -> Sight
        ensures { result ≡ sight_on axis self }
    {
        if axis == 0 {
            return self.x;
        }
        if axis == 1 {
            return self.y;
        }
        self.z
    }

    // Enter and exit times of the prepared ray through the box, from 0 on, or none where it misses it. Enter and exit are never a NaN, so one comparison
    // picks the greater and the lesser. A loop over the axes that is left by break is the form that document 01 names for this place.
    pub fn through(self, bounds: Aabb) -> Option<Span>
        ensures { result ≡ through self bounds }
    {
        let mut enter = 0.0;
        let mut exit = f64::INFINITY;
        let mut axis: usize = 0;
        loop {
            if axis == 3 {
                break ahead(enter, exit);
            }
            let s = self.along(axis);
            let min = bounds.min.along(axis);
            let max = bounds.max.along(axis);
            if s.flat {
                if s.origin < min || s.origin > max {
                    break None;
                }
            } else {
                let t0 = (min - s.origin) * s.inv;
                let t1 = (max - s.origin) * s.inv;
                enter = float::higher(enter, first(t0, t1));
                exit = float::lower(exit, second(t0, t1));
                if enter > exit {
                    break None;
                }
            }
            axis += 1;
        }
    }
}

// The sooner and the later of the times at which the ray reaches the slab's sides (rule B10).
#[tactic(auto, unfolding(crate::specs::Slab::first))]
fn first(t0: f64, t1: f64) -> f64
    ensures { result ≡ first t0 t1 }
{
    float::lower(t0, t1)
}

#[tactic(auto, unfolding(crate::specs::Slab::second))]
fn second(t0: f64, t1: f64) -> f64
    ensures { result ≡ second t0 t1 }
{
    float::higher(t1, t0)
}

// What lies behind the ray is missed (rule B11).
#[tactic(auto, unfolding(crate::specs::Slab::ahead))]
fn ahead(enter: f64, exit: f64) -> Option<Span>
    ensures { result ≡ ahead enter exit }
{
    if exit < 0.0 {
        return None;
    }
    Some(Span { enter, exit })
}
