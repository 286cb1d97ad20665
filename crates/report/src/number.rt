// Numbers of the input: eight little-endian bytes each.
ghost use Rattle.std.specs.Prelude.{◌≡◌, ◌+◌, ◌*◌, ◌≤◌, length};
ghost use Rattle.report.specs.Little.{number, numbers, vector_of, ray_of};

use crate::input;
use aabb::{Ray, Vec3};

// The number at a place; the bit pattern of a NaN becomes a NaN.
#[tactic(auto, unfolding(crate::specs::Little::number))]
pub fn number(s: &[u8], at: usize) -> f64
    requires { at + 8 ≤ length s.now }
    ensures { result ≡ number s.now at }
{
    let low = u64::from(input::word(s, at));
    let high = u64::from(input::word(s, at + 4));
    float::from_bits(low + 4294967296 * high)
}

// As many numbers as `out` holds, from a place on.
pub fn fill(s: &[u8], at: usize, out: &mut [f64])
    requires { at + 8 * length out.old ≤ length s.now }
    ensures { out.new ≡ numbers s.now at (length out.old) }
{
    for (i, place) in out.iter_mut().enumerate() {
        *place = number(s, at + 8 * i);
    }
}

#[tactic(auto, unfolding(crate::specs::Little::vector_of))]
fn vector(s: &[u8], at: usize) -> Vec3
    requires { at + 24 ≤ length s.now }
    ensures { result ≡ vector_of s.now at }
{
    Vec3 {
        x: number(s, at),
        y: number(s, at + 8),
        z: number(s, at + 16),
    }
}

// The ray at a place: origin, direction.
#[tactic(auto, unfolding(crate::specs::Little::ray_of))]
pub fn ray(s: &[u8], at: usize) -> Ray
    requires { at + 48 ≤ length s.now }
    ensures { result ≡ ray_of s.now at }
{
    Ray {
        origin: vector(s, at),
        direction: vector(s, at + 24),
    }
}
