// Bytes and digits, written into lent room from a place on. Each call answers the place after what it wrote; the rest of the room stays.
ghost use Rattle.std.specs.Prelude.{◌+◌, ◌≤◌, length};
ghost use Rattle.report.specs.Text.{Wrote, decimal, hexadecimal, named, pair};

#[tactic(auto, using(crate::proofs::Writing::pasted))]
pub fn put(out: &mut [u8], at: usize, piece: &[u8]) -> usize
    requires { at + length piece.now ≤ length out.old }
    ensures { Wrote out.old at piece.now out.new result }
{
    let end = at + piece.len();
    out[at..end].copy_from_slice(piece);
    end
}

// The decimal digits of n, without leading zeros.
pub fn put_decimal(out: &mut [u8], at: usize, n: u64) -> usize
    requires { at + 20 ≤ length out.old }
    ensures { (Wrote out.old at (decimal n) out.new result) × (result ≤ at + 20) }
{
    let mut digits = [0u8; 20];
    let k = io::decimal(n, &mut digits);
    put(out, at, &digits[..k])
}

// The sixteen hexadecimal digits of x, in lower case.
pub fn put_hexadecimal(out: &mut [u8], at: usize, x: u64) -> usize
    requires { at + 16 ≤ length out.old }
    ensures { (Wrote out.old at (hexadecimal x) out.new result) × (result ≤ at + 16) }
{
    let mut digits = [0u8; 16];
    let k = io::hex(x, 16, &mut digits);
    put(out, at, &digits[..k])
}

// A word and a number.
pub fn put_named(out: &mut [u8], at: usize, word: &[u8], n: u64) -> usize
    requires { at + length word.now + 20 ≤ length out.old }
    ensures { (Wrote out.old at (named word.now n) out.new result) × (result ≤ at + length word.now + 20) }
{
    let next = put(out, at, word);
    put_decimal(out, next, n)
}

// Two words, a number after each, and the line's end.
pub fn put_pair(out: &mut [u8], at: usize, first: &[u8], a: u64, second: &[u8], b: u64) -> usize
    requires { at + length first.now + length second.now + 41 ≤ length out.old }
    ensures { (Wrote out.old at (pair first.now a second.now b) out.new result) × (result ≤ at + length first.now + length second.now + 41) }
{
    let middle = put_named(out, at, first, a);
    let end = put_named(out, middle, second, b);
    put(out, end, b"\n")
}
