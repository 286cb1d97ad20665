// The proxies of a street's placements, written one after the other into lent room.
ghost use Rattle.std.specs.Prelude.{◌≡◌, ◌++◌, ◌+◌, ◌*◌, ◌≤◌, length, drop};
ghost use Rattle.lent.specs.Flat.{put as written, records};
ghost use Rattle.triangle.specs.Mesh.{triangle_numbers};
ghost use Rattle.street.specs.Making.{proxy_numbers};

use crate::placing;
use aabb::Aabb;
use triangle::Triangle;

// Those of the first m placements; room beyond stays.
#[tactic(auto, using(crate::proofs::ProxyRoom::none_yet, crate::proofs::ProxyRoom::one_more))]
pub fn write(matrices: &[f64], root: Aabb, room: &mut [f64], m: usize)
    requires { m * 12 ≤ length room.old }
    ensures { room.new ≡ records (proxy_numbers matrices.now root) m ++ drop (m * 12) room.old }
{
    for i in 0..m {
        let bounds = placing::world_at(matrices, root, i);
        put(room, i, placing::proxy(bounds));
    }
}

// Triangle i, written: twelve numbers.
#[tactic(auto, unfolding(lent::specs::Flat::put, triangle::specs::Mesh::triangle_numbers), using(crate::proofs::ProxyRoom::copied))]
fn put(room: &mut [f64], i: usize, t: Triangle)
    requires { i * 12 + 12 ≤ length room.old }
    ensures { room.new ≡ written 12 room.old i (triangle_numbers t) }
{
    let Triangle { v0, v1, v2, normal } = t;
    let at = i * 12;
    room[at..at + 12].copy_from_slice(&[
        v0.x, v0.y, v0.z, v1.x, v1.y, v1.z, v2.x, v2.y, v2.z, normal.x, normal.y, normal.z,
    ]);
}
