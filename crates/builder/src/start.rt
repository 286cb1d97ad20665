// What is tested before a division, what is written before it, and a list of numbers cleared.
ghost use Rattle.std.specs.Prelude.{◌≡◌, ◌≤◌, length, replicate};
ghost use Rattle.float.specs.Number.{nought};
ghost use Rattle.lent.specs.Limits.{most_triangles};
ghost use Rattle.lent.specs.Permutation.{up_to};
ghost use Rattle.builder.specs.Build.{room};

// R, the node room that n triangles ask: 2n-1, or 1 for none.
#[tactic(auto, using(crate::proofs::StartLoops::room_none, crate::proofs::StartLoops::room_some))]
pub fn room(n: u32) -> usize
    ensures { result ≡ room n }
{
    if n == 0 { 1 } else { 2 * (n as usize) - 1 }
}

// 0, 1, .., n-1
#[tactic(auto, using(crate::proofs::StartLoops::counting), unfolding(lent::specs::Permutation::up_to))]
pub fn count_up(index: &mut [u32])
    requires { length index.old ≤ most_triangles }
    ensures { index.new ≡ up_to (length index.old) }
{
    for (i, x) in index.iter_mut().enumerate() {
        *x = i as u32;
    }
}

// Zeros throughout: what is left in numbers after refusal 6, here and in a street's proxies.
pub fn clear_floats(s: &mut [f64])
    ensures { s.new ≡ replicate (length s.old) nought }
{
    s.fill(0.0);
}
