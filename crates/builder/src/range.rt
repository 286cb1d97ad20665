// What is asked of a range of triangle numbers: the boxes of its triangles and of their centroids, in one pass.
ghost use Rattle.std.specs.Prelude.{◌≡◌, ◌+◌, ◌/◌, ◌≤◌, ◌<◌, length};
ghost use Rattle.lent.specs.Limits.{most_triangles};
ghost use Rattle.builder.specs.Range.{Numbered, node_box, centroid_box};
ghost use Rattle.aabb.specs.Vector.{vector_at};
ghost use Rattle.aabb.specs.Bounds.{of_three};
ghost use Rattle.triangle.specs.Mesh.{triangle_at, corners_of, centroid_at};

use aabb::{Aabb, Vec3};
use triangle::{Corners, Triangle};

// The node's box, and the box of the centroids: the least and the greatest on each axis.
#[derive(Clone, Copy)]
pub struct Hull {
    pub bounds: Aabb,
    pub centroids: Aabb,
}

// Three numbers that are there. Triangle has the same, inside: public, it would ask something of its caller; and `Vec3::read` tests each vector.
#[tactic(auto, unfolding(aabb::specs::Vector::vector_at))]
fn three(triangles: &[f64], at: usize) -> Vec3
    requires { at + 3 ≤ length triangles.now }
    ensures { result ≡ vector_at triangles.now at }
{
    Vec3 {
        x: triangles[at],
        y: triangles[at + 1],
        z: triangles[at + 2],
    }
}

// The vertices of a triangle that is there: with no case beyond the mesh's end, which `Corners::read` has, nothing is called in a pass over a range.
#[tactic(auto, unfolding(triangle::specs::Mesh::triangle_at, triangle::specs::Mesh::corners_of))]
pub fn corners(triangles: &[f64], i: u32) -> Corners
    requires { i < length triangles.now / 12 }
    ensures { result ≡ corners_of (triangle_at triangles.now i) }
{
    let at = i as usize * 12;
    let v0 = three(triangles, at);
    let v1 = three(triangles, at + 3);
    let v2 = three(triangles, at + 6);
    Corners { v0, v1, v2 }
}

// The box of the vertices.
#[tactic(auto, using(aabb::proofs::Running::three_by))]
pub fn box_of(t: Corners) -> Aabb
    ensures { result ≡ of_three t.v0 t.v1 t.v2 }
{
    Aabb::empty().widened(t.v0).widened(t.v1).widened(t.v2)
}

// Both boxes of a range of triangles that are there.
pub fn around(triangles: &[f64], index: &[u32]) -> Hull
    requires numbered { Numbered triangles.now index.now }
    requires index_len_bound { length index.now ≤ most_triangles }
    ensures { (result.bounds ≡ node_box triangles.now index.now) × (result.centroids ≡ centroid_box triangles.now index.now) }
{
    let mut bounds = Aabb::empty();
    let mut centroids = Aabb::empty();
    for i in index {
        let t = corners(triangles, *i);
        bounds = bounds.joined(box_of(t));
        centroids = centroids.widened(t.centroid());
    }
    Hull { bounds, centroids }
}

// The centroid of a triangle on an axis.
#[tactic(auto, using(crate::proofs::RangePasses::centroid_there), unfolding(triangle::specs::Mesh::centroid_at))]
pub fn centroid_on(triangles: &[f64], i: u32, axis: usize) -> f64
    ensures { result ≡ centroid_at triangles.now axis i }
{
    let k = i as usize;
    if axis < 3 && k < triangles.len() / 12 {
        let at = k * 12 + axis;
        return (triangles[at] + triangles[at + 3] + triangles[at + 6]) / 3.0;
    }
    Triangle::read(triangles, k).centroid().along(axis)
}
