// Which numbers are exactly a binary32, found out without a cast that rounds.
ghost use Rattle.std.specs.Prelude.{◌≡◌, not, ℕ, ◌*◌, ◌%◌, ◌≤◌, ◌<◌, T};
ghost use Rattle.std.specs.Float.{NotNan, binary32, binary64};
ghost use Rattle.std.specs.Float.Ieee.{of_bits, to_bits, nan_bits};
ghost use Rattle.float.specs.Single.{exactly32};

// Whether x is exactly a binary32 (rule F9). A zero is; so is a number whose exponent a binary32 has and whose last 29 digits are 0. Nearly all of a mesh are
// such.
pub fn is_single(x: f64) -> bool
    ensures { result ≡ exactly32 x }
{
    if x.is_nan() {
        return false;
    }
    let size = x.to_bits() % 0x8000_0000_0000_0000;
    if size == 0 || short(size) {
        return true;
    }
    stays(x)
}

// Whether a size has the exponent of a normal binary32 and no more digits than that keeps.
fn short(size: u64) -> bool
    ensures { T result → (size % 536870912 ≡ 0) × (897 * 4503599627370496 ≤ size) × (size < 1151 * 4503599627370496) }
{
    size % 0x2000_0000 == 0 && size >= 0x3810_0000_0000_0000 && size < 0x47f0_0000_0000_0000
}

// Whether the one binary32 that x can be, widened, is x, bit for bit. Apart, so that `is_single` is small enough to be inlined.
#[inline(never)]
fn stays(x: f64) -> bool
    requires { NotNan x }
    ensures { result ≡ exactly32 x }
{
    let pattern = x.to_bits();
    (f32::from_bits(candidate(pattern)) as f64).to_bits() == pattern
}

// The one binary32 whose number can have this binary64's pattern, by where its digits and its exponent's field go. (The library rounds to the nearest one in
// whole numbers, `nearest_f64_to_f32`; for a subnormal binary32 that takes twice as long.)
fn candidate(pattern: u64) -> u32
    ensures { T (not (nan_bits binary32 result)) × ((w : ℕ) → w < 4294967296 → T (not (nan_bits binary32 w)) → pattern ≡ to_bits binary64 (of_bits binary32 w) → result ≡ w) }
{
    let sign = (pattern / 0x8000_0000_0000_0000) as u32 * 0x8000_0000;
    let size = pattern % 0x8000_0000_0000_0000;
    if size < 0x36a0_0000_0000_0000 {
        return sign;
    }
    if size < 0x3810_0000_0000_0000 {
        let digits = 0x10_0000_0000_0000 + size % 0x10_0000_0000_0000;
        let below = 926 - size / 0x10_0000_0000_0000;
        return sign + (digits >> below) as u32;
    }
    if size < 0x47f0_0000_0000_0000 {
        return sign + ((size - 0x3800_0000_0000_0000) / 0x2000_0000) as u32;
    }
    sign + 0x7f80_0000
}
