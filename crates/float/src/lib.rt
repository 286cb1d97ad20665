// The float calls as the documents fix them (rules F3 to F9): the infinity, `abs`, `min`, `max` and `total_cmp`, which document 01 has worked out by the program,
// the square root, and whether a number is a binary32.
// Each answers on every f64. The laws of the order and of rounding, which the other layers cite, stand in proofs/.
#![tactic(auto)]

mod single; // single.rt: which numbers are exactly a binary32

ghost use Rattle.std.specs.Prelude.{◌≡◌};
ghost use Rattle.std.specs.Float.{binary64};
ghost use Rattle.std.specs.Float.Ieee.{to_bits, of_bits};
ghost use Rattle.float.specs.Number.{infinity};
ghost use Rattle.float.specs.Pick.{magnitude, lesser, greater, lower, higher};
ghost use Rattle.float.specs.Total.{total_less, less_number, minus_zero};
ghost use Rattle.float.specs.Root.{root};

pub use single::is_single;

// 2^40, the limit of vertices, of a ray's origin and of boxes.
pub const TWO_TO_40: f64 = 1099511627776.0;

// +inf: the library's constant. A walk asks it by this call; docs/DECISIONS.md names it.
pub fn infinity() -> f64
    ensures { result ≡ infinity }
{
    f64::INFINITY
}

// |x|; a NaN stays one.
pub fn magnitude(x: f64) -> f64
    ensures { result ≡ magnitude x }
{
    if x < 0.0 {
        return -x;
    }
    if x == 0.0 {
        return 0.0;
    }
    x
}

// Lesser and greater, and lower and higher after them, are twins of one line: a function that is told the comparison would be no plainer.
// The lesser of the running number and x (rule F4): a NaN gives way, and beside an equal number the running one stays.
#[tactic(auto, unfolding(crate::specs::Pick::lesser))]
pub fn lesser(run: f64, x: f64) -> f64
    ensures { result ≡ lesser run x }
{
    if x < run || run.is_nan() { x } else { run }
}

// The greater of the running number and x (rule F4): a NaN gives way, and beside an equal number the running one stays.
#[tactic(auto, unfolding(crate::specs::Pick::greater))]
pub fn greater(run: f64, x: f64) -> f64
    ensures { result ≡ greater run x }
{
    if run < x || run.is_nan() { x } else { run }
}

// Beside a running number that is no NaN, the lesser by one comparison (proofs/Pick.antt: `lower_is`); a running NaN is kept.
pub fn lower(run: f64, x: f64) -> f64
    ensures { result ≡ lower run x }
{
    if run > x { x } else { run }
}

// The greater, likewise (`higher_is`).
pub fn higher(run: f64, x: f64) -> f64
    ensures { result ≡ higher run x }
{
    if x > run { x } else { run }
}

// Whether x is -0, which no comparison tells from +0.
pub fn minus_zero(x: f64) -> bool
    ensures { result ≡ minus_zero x }
{
    x == 0.0 && 1.0 / x < 0.0
}

// Whether x is the lesser number; a NaN is above every number.
#[tactic(auto, using(crate::proofs::Total::real_not), unfolding(crate::specs::Total::less_number))]
pub fn less_number(x: f64, y: f64) -> bool
    ensures { result ≡ less_number x y }
{
    !x.is_nan() && (y.is_nan() || x < y)
}

// Whether x comes before y by `total_cmp`: by number, -0 before +0, a NaN last.
#[tactic(auto, unfolding(crate::specs::Total::total_less, crate::specs::Total::less_zero))]
pub fn total_less(x: f64, y: f64) -> bool
    ensures { result ≡ total_less x y }
{
    less_number(x, y) || !less_number(y, x) && minus_zero(x) && !minus_zero(y)
}

// The bit pattern of x; of a NaN the one with the sign clear and only the highest digit set.
pub fn bits(x: f64) -> u64
    ensures { result ≡ to_bits binary64 x }
{
    if x.is_nan() {
        return 0x7ff8_0000_0000_0000;
    }
    f64::to_bits(x)
}

// The number that a bit pattern stands for; the pattern of a NaN becomes the NaN.
pub fn from_bits(pattern: u64) -> f64
    ensures { result ≡ of_bits binary64 pattern }
{
    if pattern % 0x8000_0000_0000_0000 / 0x10_0000_0000_0000 == 2047 {
        if pattern % 0x10_0000_0000_0000 == 0 {
            return f64::from_bits(pattern);
        }
        return f64::NAN;
    }
    f64::from_bits(pattern)
}

// The square root of x (rule F8). Of a zero and of +inf it is x itself; of a NaN, and of whatever is below zero, the NaN as rule F7 writes it: the
// hardware's would have another pattern. Else it is the hardware's operation, proved equal to the rule on every f64 (proofs/RootRounded.antt: `sqrt_is`).
#[tactic(auto, using(crate::proofs::RootRounded::sqrt_is, crate::proofs::RootRounded::below_zero, crate::proofs::RootRounded::of_nan))]
pub fn root(x: f64) -> f64
    ensures { result ≡ root x }
{
    if x < 0.0 || x.is_nan() {
        return f64::NAN;
    }
    x.sqrt()
}
