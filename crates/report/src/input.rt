// The input, measured (rules I1 and I2): how many triangles, the triangles, how many rays, the rays.
ghost use Rattle.std.specs.Prelude.{◌≡◌, ◌+◌, ◌≤◌, length};
ghost use Rattle.report.specs.Little.{word};
ghost use Rattle.report.specs.Input.{measured};

// What an input holds, whole and with nothing left over: so many triangles and so many rays.
#[derive(Clone, Copy, Debug, PartialEq, Eq)]
pub struct Input {
    pub triangles: usize,
    pub rays: usize,
}

// Four little-endian bytes, as crate stl has them for its own format.
#[tactic(auto, unfolding(crate::specs::Little::word))]
pub fn word(s: &[u8], at: usize) -> u32
    requires { at + 4 ≤ length s.now }
    ensures { result ≡ word s.now at }
{
    u32::from_le_bytes([s[at], s[at + 1], s[at + 2], s[at + 3]])
}

// How many triangles and rays the input holds; none where a count is above 200, or the input is not as long as the counts say.
pub fn measure(input: &[u8]) -> Option<Input>
    ensures { result ≡ measured input.now }
{
    let length = input.len();
    if length < 4 {
        return None;
    }
    let triangles = word(input, 0) as usize;
    let at = 4 + 96 * triangles;
    if 200 < triangles || length < at + 4 {
        return None;
    }
    let rays = word(input, at) as usize;
    if 200 < rays || length != at + 4 + 48 * rays {
        return None;
    }
    Some(Input { triangles, rays })
}
