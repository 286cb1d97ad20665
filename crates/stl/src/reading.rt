// The work of a reading, on a slice and a place.
ghost use Rattle.std.specs.Prelude.{◌≡◌, ℕ, ◌+◌, ◌*◌, ◌≤◌, ◌<◌, T, length};
ghost use Rattle.triangle.specs.Mesh.{admitted_triangle, first_refused};
ghost use Rattle.stl.specs.Layout.{triangle_in, numbers_of, mesh_in};
ghost use Rattle.stl.specs.Answers.{told, read_as};
ghost use Rattle.stl.specs.Reading.{read_from};

use crate::bytes;
use lent::{Reason, Refused};

// What takes the pattern of a binary32 above 2^40, and above 2, to 2^31.
const FAR: u64 = 0x2c7f_ffff;

const STEEP: u64 = 0x3fff_ffff;

// The count at a place and the triangles behind it, into the lent rooms.
pub fn read_from(
    file: &[u8],
    at: usize,
    triangles: &mut [f64],
    materials: &mut [u32],
) -> Result<usize, Refused>
    ensures { read_as (told result) triangles.new materials.new ≡ read_from file.now at triangles.old materials.old }
{
    let length = file.len();
    if length < 4 || length - 4 < at {
        return Err(Refused {
            reason: Reason::BadFile,
            at: 0,
        });
    }
    let n = bytes::word(file, at) as usize;
    let first = at + 4;
    if length - first != 50 * n {
        return Err(Refused {
            reason: Reason::BadFile,
            at: 0,
        });
    }
    let numbers = 12 * n;
    if lent::MOST_TRIANGLES < n {
        return Err(Refused {
            reason: Reason::Crowded,
            at: n,
        });
    }
    if triangles.len() < numbers || materials.len() < n {
        return Err(Refused {
            reason: Reason::ShortRoom,
            at: 0,
        });
    }
    if let Some(at) = first_refused(file, first, n) {
        return Err(Refused {
            reason: Reason::BadTriangle,
            at,
        });
    }
    fill(file, first, &mut triangles[0..numbers], n);
    materials[0..n].fill(0);
    Ok(n)
}

// The lowest of n triangles from a place on that isn't admitted.
fn first_refused(s: &[u8], at: usize, n: usize) -> Option<usize>
    requires { at + 50 * n ≤ length s.now }
    ensures { result ≡ first_refused (mesh_in s.now at n) 0 n }
{
    (0..n).find(|i| !admitted(s, at + 50 * *i))
}

// Whether the triangle at a place is admitted. The order of the patterns is that of the numbers' sizes, infinities and NaNs last; so twelve comparisons are one of
// the bits that the margins carry into.
#[tactic(auto, using(crate::proofs::Admits::admitted_is))]
fn admitted(s: &[u8], at: usize) -> bool
    requires { at + 48 ≤ length s.now }
    ensures { result ≡ admitted_triangle (triangle_in s.now at) }
{
    let a = bytes::raised(s, at, STEEP, STEEP);
    let b = bytes::raised(s, at + 8, STEEP, FAR);
    let c = bytes::raised(s, at + 16, FAR, FAR);
    let d = bytes::raised(s, at + 24, FAR, FAR);
    let e = bytes::raised(s, at + 32, FAR, FAR);
    let f = bytes::raised(s, at + 40, FAR, FAR);
    (a | b | c | d | e | f) & 0x8000_0000_8000_0000 == 0
}

// As many triangles as `out` has room for, from a place on, each admitted. By places, since after `chunks_exact_mut` a proof knows only how long a slice is.
fn fill(s: &[u8], at: usize, out: &mut [f64], n: usize)
    requires { (at + 50 * n ≤ length s.now) × (length out.old ≡ 12 * n) × ((j : ℕ) → j < n → T (admitted_triangle (triangle_in s.now (at + 50 * j)))) }
    ensures { out.new ≡ mesh_in s.now at n }
{
    for i in 0..n {
        put(s, at + 50 * i, &mut out[12 * i..12 * i + 12]);
    }
}

// The twelve numbers of the triangle at a place: v0, v1, v2, normal. In the file the normal comes first.
fn put(s: &[u8], at: usize, out: &mut [f64])
    requires { (at + 48 ≤ length s.now) × (length out.old ≡ 12) × T (admitted_triangle (triangle_in s.now at)) }
    ensures { out.new ≡ numbers_of (triangle_in s.now at) }
{
    for k in 0..12 {
        out[k] = bytes::number(s, at + (12 + 4 * k) % 48);
    }
}
