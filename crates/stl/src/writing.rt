// The work of a writing, on lent room that is just as long as what is written.
ghost use Rattle.std.specs.Prelude.{◌≡◌, ℕ, ◌+◌, ◌*◌, ◌<◌, ◌≤◌, T, length};
ghost use Rattle.lent.specs.Limits.{most_triangles};
ghost use Rattle.float.specs.Single.{exactly32};
ghost use Rattle.aabb.specs.Vector.{all};
ghost use Rattle.triangle.specs.Mesh.{triangle_at};
ghost use Rattle.stl.specs.Layout.{bytes_of, narrowed, vector_bytes, record_of, records_of, file_of};
ghost use Rattle.stl.specs.Writing.{exact_triangle, first_inexact};

use aabb::Vec3;
use triangle::Triangle;

// The lowest of n triangles with a number that isn't exactly a binary32.
pub fn first_inexact(mesh: &[f64], n: usize) -> Option<usize>
    ensures { result ≡ first_inexact mesh.now 0 n }
{
    (0..n).find(|i| !exact_triangle(Triangle::read(mesh, *i)))
}

#[tactic(auto, unfolding(crate::specs::Writing::exact_triangle))]
fn exact_triangle(t: Triangle) -> bool
    ensures { result ≡ exact_triangle t }
{
    exact_vector(t.v0) && exact_vector(t.v1) && exact_vector(t.v2) && exact_vector(t.normal)
}

fn exact_vector(a: Vec3) -> bool
    ensures { result ≡ all exactly32 a }
{
    float::is_single(a.x) && float::is_single(a.y) && float::is_single(a.z)
}

// A zero header, the count, the triangles.
pub fn put_file(mesh: &[f64], out: &mut [u8], n: usize)
    requires { (n ≤ most_triangles) × (length out.old ≡ 84 + 50 * n) × ((j : ℕ) → j < n → T (exact_triangle (triangle_at mesh.now j))) }
    ensures { out.new ≡ file_of mesh.now n }
{
    out[0..80].fill(0);
    put_word(&mut out[80..84], n as u32);
    put_triangles(mesh, &mut out[84..84 + 50 * n], n);
}

// The first n triangles of a mesh, each exactly of binary32 numbers. By places, since after `chunks_exact_mut` a proof knows only how long a slice is.
fn put_triangles(mesh: &[f64], out: &mut [u8], n: usize)
    requires { (length out.old ≡ 50 * n) × ((j : ℕ) → j < n → T (exact_triangle (triangle_at mesh.now j))) }
    ensures { out.new ≡ records_of mesh.now n }
{
    for i in 0..n {
        put_triangle(&mut out[50 * i..50 * i + 50], Triangle::read(mesh, i));
    }
}

// Normal, three vertices, a zero attribute.
fn put_triangle(out: &mut [u8], t: Triangle)
    requires { (length out.old ≡ 50) × T (exact_triangle t) }
    ensures { out.new ≡ record_of t }
{
    put_vector(&mut out[0..12], t.normal);
    put_vector(&mut out[12..24], t.v0);
    put_vector(&mut out[24..36], t.v1);
    put_vector(&mut out[36..48], t.v2);
    out[48] = 0;
    out[49] = 0;
}

fn put_vector(out: &mut [u8], a: Vec3)
    requires { (length out.old ≡ 12) × T (all exactly32 a) }
    ensures { out.new ≡ vector_bytes a }
{
    put_number(&mut out[0..4], a.x);
    put_number(&mut out[4..8], a.y);
    put_number(&mut out[8..12], a.z);
}

#[tactic(auto, unfolding(float::specs::Single::exactly32, crate::specs::Layout::narrowed))]
fn put_number(out: &mut [u8], x: f64)
    requires { (length out.old ≡ 4) × T (exactly32 x) }
    ensures { out.new ≡ narrowed x }
{
    put_word(out, f32::to_bits(x as f32));
}

// Four little-endian bytes.
#[tactic(auto, unfolding(crate::specs::Layout::bytes_of))]
fn put_word(out: &mut [u8], w: u32)
    requires { length out.old ≡ 4 }
    ensures { out.new ≡ bytes_of w }
{
    out.copy_from_slice(&w.to_le_bytes());
}
