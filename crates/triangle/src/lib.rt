// Triangles and the Möller–Trumbore test: a port of triangle.rs. Every call answers on every f64.
// Left out: what turns a triangle of optics_core into one. For `surface_index` a hit has the triangle's number, and for `material_id`, which the Rust
// keeps in the triangle, the material that is lent beside it. A mesh is a lent slice, twelve numbers a triangle: v0, v1, v2, normal.
#![tactic(auto)]

mod normals; // normals.rt: Triangle::new, and the call that refills a mesh

ghost use Rattle.std.specs.Prelude.{◌≡◌, ◌+◌, ◌/◌, ◌<◌, ◌≤◌, length, IfOk};
ghost use Rattle.lent.specs.Limits.{most_triangles};
ghost use Rattle.lent.specs.Ladder.{triangle_count, mesh_checks, first_failed};
ghost use Rattle.lent.specs.Refusals.{refusal_of};
ghost use Rattle.float.specs.Number.{three};
ghost use Rattle.aabb.specs.Vector.{vector_at, plus, divided};
ghost use Rattle.triangle.specs.Mesh.{triangle_at, corners_of, bounds_of, centroid_of, admitted_triangle, first_refused};
ghost use Rattle.triangle.specs.Meeting.{crossing_of, judged, distance_to, distance, hit_at, strike};

use aabb::{Aabb, Ray, Vec3};
use lent::{Reason, Refused};
pub use normals::refill_normals;

#[derive(Clone, Copy)]
pub struct Triangle {
    pub v0: Vec3,
    pub v1: Vec3,
    pub v2: Vec3,
    pub normal: Vec3,
}

// The vertices of a triangle, for what needs no normal: a whole triangle by value would go through memory.
#[derive(Clone, Copy)]
pub struct Corners {
    pub v0: Vec3,
    pub v1: Vec3,
    pub v2: Vec3,
}

// What a ray finds where it meets a triangle: the distance, the point, the normal on the ray's side, where on the triangle it is (u
// along the edge from v0 to v1, v along that to v2), whether that side is the front, and the triangle's number and material.
#[derive(Clone, Copy)]
pub struct Hit {
    pub t: f64,
    pub point: Vec3,
    pub normal: Vec3,
    pub u: f64,
    pub v: f64,
    pub front: bool,
    pub triangle: u32,
    pub material: u32,
}

// The numbers of the test, by the Rust's names, worked out straight through.
#[derive(Clone, Copy)]
pub struct Crossing {
    pub det: f64,
    pub u: f64,
    pub v: f64,
    pub t: f64,
}

impl Triangle {
    // Triangle i of a mesh; a NaN for each number beyond the mesh's end.
    pub fn read(mesh: &[f64], i: usize) -> Triangle
        ensures { result ≡ triangle_at mesh.now i }
    {
        if i < mesh.len() / 12 {
            return whole(mesh, i);
        }
        let at = aabb::vector::place(mesh, i, 12);
        let v0 = Vec3::read(mesh, at);
        let v1 = Vec3::read(mesh, at + 3);
        let v2 = Vec3::read(mesh, at + 6);
        let normal = Vec3::read(mesh, at + 9);
        Triangle { v0, v1, v2, normal }
    }

    // The box of the three vertices.
    #[tactic(auto, unfolding(crate::specs::Mesh::bounds_of))]
    pub fn aabb(self) -> Aabb
        ensures { result ≡ bounds_of self }
    {
        Aabb::from_points(self.v0, self.v1, self.v2)
    }

    // The three vertices.
    #[tactic(auto, unfolding(crate::specs::Mesh::corners_of))]
    pub fn corners(self) -> Corners
        ensures { result ≡ corners_of self }
    {
        let v0 = self.v0;
        let v1 = self.v1;
        let v2 = self.v2;
        Corners { v0, v1, v2 }
    }

    // Their centroid.
    pub fn centroid(self) -> Vec3
        ensures { result ≡ centroid_of self }
    {
        self.corners().centroid()
    }

    // Whether it is admitted (rule N2): no number of a vertex beyond 2^40 in size, none of the normal beyond 2.
    #[tactic(auto, unfolding(crate::specs::Mesh::admitted_triangle))]
    pub fn admitted(self) -> bool
        ensures { result ≡ admitted_triangle self }
    {
        self.v0.within(float::TWO_TO_40)
            && self.v1.within(float::TWO_TO_40)
            && self.v2.within(float::TWO_TO_40)
            && self.normal.within(2.0)
    }

    // How far along the ray the triangle is met, without the hit.
    pub fn distance(self, ray: Ray) -> Option<f64>
        ensures { result ≡ distance ray self }
    {
        self.corners().distance(ray)
    }

    // The hit at distance t (rule T5), with the normal turned to the ray's side, and u and v worked out as the test works them out.
    #[tactic(auto, unfolding(crate::specs::Meeting::hit_at, crate::specs::Meeting::faces, crate::specs::Meeting::crossing_of))]
    pub fn hit(self, ray: Ray, t: f64, number: u32, material: u32) -> Hit
        ensures { result ≡ hit_at ray self number material t }
    {
        let point = ray.at(t);
        let spot = self.corners().crossing(ray);
        let front = ray.direction.dot(self.normal) < 0.0;
        let normal = if front {
            self.normal
        } else {
            self.normal.negated()
        };
        Hit {
            t,
            point,
            normal,
            u: spot.u,
            v: spot.v,
            front,
            triangle: number,
            material,
        }
    }

    // What the ray finds of the triangle, whose number and material are given.
    pub fn intersect(self, ray: Ray, number: u32, material: u32) -> Option<Hit>
        ensures { result ≡ strike ray self number material }
    {
        let t = self.distance(ray)?;
        Some(self.hit(ray, t, number, material))
    }
}

impl Corners {
    // Of triangle i of a mesh; a NaN for each number beyond the mesh's end.
    pub fn read(mesh: &[f64], i: usize) -> Corners
        ensures { result ≡ corners_of (triangle_at mesh.now i) }
    {
        if i < mesh.len() / 12 {
            let at = i * 12;
            let v0 = three(mesh, at);
            let v1 = three(mesh, at + 3);
            let v2 = three(mesh, at + 6);
            return Corners { v0, v1, v2 };
        }
        Triangle::read(mesh, i).corners()
    }

    // ((v0 + v1) + v2) / 3, by component (rule T2).
    pub fn centroid(self) -> Vec3
        ensures { result ≡ divided (plus (plus self.v0 self.v1) self.v2) three }
    {
        self.v0.plus(self.v1).plus(self.v2).divided(3.0)
    }

    // The numbers of the test, step by step as the Rust works them out.
    #[tactic(auto, unfolding(crate::specs::Meeting::crossing_of, crate::specs::Meeting::det, crate::specs::Meeting::edge1, crate::specs::Meeting::edge2, crate::specs::Meeting::inv_det, crate::specs::Meeting::pvec, crate::specs::Meeting::qvec, crate::specs::Meeting::t_of, crate::specs::Meeting::tvec, crate::specs::Meeting::u_of, crate::specs::Meeting::v_of))]
    pub fn crossing(self, ray: Ray) -> Crossing
        ensures { result ≡ crossing_of ray self }
    {
        let edge1 = self.v1.minus(self.v0);
        let edge2 = self.v2.minus(self.v0);
        let pvec = ray.direction.cross(edge2);
        let det = edge1.dot(pvec);
        let inv_det = 1.0 / det;
        let tvec = ray.origin.minus(self.v0);
        let u = tvec.dot(pvec) * inv_det;
        let qvec = tvec.cross(edge1);
        let v = ray.direction.dot(qvec) * inv_det;
        let t = edge2.dot(qvec) * inv_det;
        Crossing { det, u, v, t }
    }

    // How far along the ray the triangle is met, whatever its normal.
    pub fn distance(self, ray: Ray) -> Option<f64>
        ensures { result ≡ distance_to ray self }
    {
        self.crossing(ray).distance()
    }
}

impl Crossing {
    // How far along the ray the triangle is met: the Rust's tests. Most triangles are missed by u or v, and a processor can't foretell by which of
    // four tests; so one that fails only where one of those does comes first, and few are left for them.
    pub fn distance(self) -> Option<f64>
        ensures { result ≡ judged self.det self.u self.v self.t }
    {
        let both = self.u + self.v;
        let least = float::lower(float::lower(self.u, self.v), 1.0 - both);
        if !(0.0 <= least) {
            return None;
        }
        if float::magnitude(self.det) < 1e-10 {
            return None;
        }
        if !(0.0 <= self.u) {
            return None;
        }
        if !(self.u <= 1.0) {
            return None;
        }
        if self.v < 0.0 {
            return None;
        }
        if both > 1.0 {
            return None;
        }
        if self.t <= 1e-6 {
            return None;
        }
        Some(self.t)
    }
}

// How many triangles a mesh has. Refused: 1 its numbers are not in twelves; 2 it has more than 65,536 triangles (at: how many).
#[tactic(auto, unfolding(lent::specs::Ladder::first_failed))]
pub fn count(mesh: &[f64]) -> Result<usize, Refused>
    ensures refusal { refusal_of result ≡ first_failed (mesh_checks mesh.now) }
    ensures count { IfOk result (λ n. n ≡ triangle_count mesh.now) }
    ensures few { IfOk result (λ n. n ≤ most_triangles) }
{
    if mesh.len() % 12 != 0 {
        return Err(Refused {
            reason: Reason::Ragged,
            at: 0,
        });
    }
    let n = mesh.len() / 12;
    if lent::MOST_TRIANGLES < n {
        return Err(Refused {
            reason: Reason::Crowded,
            at: n,
        });
    }
    Ok(n)
}

// Whether triangle i of a mesh is admitted; none beyond the mesh's end is.
pub fn admitted_at(mesh: &[f64], i: usize) -> bool
    ensures { result ≡ admitted_triangle (triangle_at mesh.now i) }
{
    i < mesh.len() / 12 && whole(mesh, i).admitted()
}

// The lowest number, below n, of a triangle that isn't admitted.
pub fn first_refused(mesh: &[f64], n: usize) -> Option<usize>
    ensures { result ≡ first_refused mesh.now 0 n }
{
    (0..n).find(|i| !admitted_at(mesh, *i))
}

// Three numbers of a mesh, which are there.
#[tactic(auto, unfolding(aabb::specs::Vector::vector_at))]
fn three(mesh: &[f64], at: usize) -> Vec3
    requires { at + 3 ≤ length mesh.now }
    ensures { result ≡ vector_at mesh.now at }
{
    Vec3 {
        x: mesh[at],
        y: mesh[at + 1],
        z: mesh[at + 2],
    }
}

// Triangle i, which is there: one test of its place does for all twelve numbers.
#[tactic(auto, unfolding(crate::specs::Mesh::triangle_at))]
fn whole(mesh: &[f64], i: usize) -> Triangle
    requires { i < length mesh.now / 12 }
    ensures { result ≡ triangle_at mesh.now i }
{
    let at = i * 12;
    let v0 = three(mesh, at);
    let v1 = three(mesh, at + 3);
    let v2 = three(mesh, at + 6);
    let normal = three(mesh, at + 9);
    Triangle { v0, v1, v2, normal }
}
