// Normals worked out from the corners (rules T6 and T7): `Triangle::new` of triangle.rs (the length's root is float::root), and a call that does
// it for every triangle of a mesh, which the Rust has not.
ghost use Rattle.std.specs.Prelude.{◌≡◌, ◌+◌, ◌*◌, ◌/◌, ◌≤◌, length};
ghost use Rattle.triangle.specs.Normal.{direction, normal_of, new_triangle};
ghost use Rattle.lent.specs.Refusals.{refusal_of};
ghost use Rattle.triangle.specs.Refilled.{outcome, put, filled, filled_from, refilled};

use crate::{Corners, Triangle};
use aabb::Vec3;
use lent::{Reason, Refused};

impl Triangle {
    // The triangle with these corners. Its normal is the cross product of the edges from v0, divided by its length, or (0, 1, 0) where the squared
    // length is not above 1e-12.
    pub fn new(v0: Vec3, v1: Vec3, v2: Vec3) -> Triangle
        ensures { result ≡ new_triangle v0 v1 v2 }
    {
        let normal = normal_of(v0, v1, v2);
        Triangle { v0, v1, v2, normal }
    }
}

// Its normal alone.
fn normal_of(v0: Vec3, v1: Vec3, v2: Vec3) -> Vec3
    ensures { result ≡ normal_of v0 v1 v2 }
{
    let edge1 = v1.minus(v0);
    let edge2 = v2.minus(v0);
    let cross = edge1.cross(edge2);
    direction(cross)
}

fn direction(cross: Vec3) -> Vec3
    ensures { result ≡ direction cross }
{
    let squared = cross.dot(cross);
    if squared > 1e-12 {
        return cross.divided(float::root(squared));
    }
    Vec3 {
        x: 0.0,
        y: 1.0,
        z: 0.0,
    }
}

// Refills every normal of a mesh, twelve numbers a triangle, from the corners (rule T7); no other number changes. Refused, in this order, and then nothing
// is written: 1 the numbers are not in twelves; 2 more than 65,536 triangles (at: how many); 5 a triangle isn't admitted (at: the lowest number).
#[tactic(auto, unfolding(crate::specs::Refilled::refilled, crate::specs::Mesh::unadmitted, lent::specs::Ladder::unless, lent::specs::Ladder::answered, lent::specs::Ladder::first_failed))]
pub fn refill_normals(mesh: &mut [f64]) -> Result<(), Refused>
    ensures { outcome (refusal_of result) mesh.new ≡ refilled mesh.old }
{
    let n = crate::count(mesh)?;
    if let Some(at) = crate::first_refused(mesh, n) {
        return Err(Refused {
            reason: Reason::BadTriangle,
            at,
        });
    }
    fill(mesh);
    Ok(())
}

fn fill(mesh: &mut [f64])
    ensures { mesh.new ≡ filled_from mesh.old 0 (length mesh.old / 12) }
{
    for i in 0..mesh.len() / 12 {
        fill_one(mesh, i);
    }
}

fn fill_one(mesh: &mut [f64], i: usize)
    requires { i * 12 + 12 ≤ length mesh.old }
    ensures { mesh.new ≡ filled mesh.old i }
{
    let t = Corners::read(mesh, i);
    let normal = normal_of(t.v0, t.v1, t.v2);
    put(mesh, i * 12 + 9, normal);
}

#[tactic(auto, unfolding(crate::specs::Refilled::put))]
fn put(mesh: &mut [f64], at: usize, v: Vec3)
    requires { at + 3 ≤ length mesh.old }
    ensures { mesh.new ≡ put mesh.old at v }
{
    mesh[at] = v.x;
    mesh[at + 1] = v.y;
    mesh[at + 2] = v.z;
}
