// A placement's world box, from the eight corners of the house's root box, and the proxy triangle that stands for it in the top tree (scene.rs).
ghost use Rattle.std.specs.Prelude.{◌≡◌, [], ◌∷◌};
ghost use Rattle.aabb.specs.Vector.{vec};
ghost use Rattle.street.specs.Placing.{grown_by, world_box, proxy_of, world_at};

use crate::rows::Matrix;
use aabb::{Aabb, Vec3};
use triangle::Triangle;

// The box of the root box's eight corners in the world: x changes fastest, then y, then z.
pub fn world_box(matrix: Matrix, root: Aabb) -> Aabb
    ensures { result ≡ world_box matrix root }
{
    let mut bounds = Aabb::empty();
    for z in [root.min.z, root.max.z] {
        for y in [root.min.y, root.max.y] {
            for x in [root.min.x, root.max.x] {
                bounds = bounds.grow(matrix.point(Vec3 { x, y, z }));
            }
        }
    }
    bounds
}

// The triangle of min, max and half their sum, with the normal that these give.
#[tactic(auto, unfolding(crate::specs::Placing::proxy_of))]
pub fn proxy(b: Aabb) -> Triangle
    ensures { result ≡ proxy_of b }
{
    let middle = b.center();
    Triangle::new(b.min, b.max, middle)
}

// The world box of placement i.
#[tactic(auto, unfolding(crate::specs::Placing::world_at))]
pub fn world_at(matrices: &[f64], root: Aabb, i: usize) -> Aabb
    ensures { result ≡ world_at matrices.now root i }
{
    world_box(Matrix::read(matrices, i), root)
}
