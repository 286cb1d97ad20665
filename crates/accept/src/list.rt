// Condition (v): the list is a permutation of all triangle numbers. The work room has 1 for each triangle that was seen.
ghost use Rattle.std.specs.Prelude.{◌≡◌, ℕ, ◌<◌, ◌≤◌, length, get_or};
ghost use Rattle.lent.specs.Lowest.{lowest};
ghost use Rattle.accept.specs.Conditions.{misplaced};
ghost use Rattle.accept.specs.Accept.{lacking};

// A triangle that no entry has named yet.
pub const UNSEEN: u32 = 0;

// The lowest entry that is out of range or was seen before; the list's length if only entries are lacking.
pub fn first_misplaced(index: &[u32], n: usize, work: &mut [u32]) -> Option<usize>
    requires { (n ≤ length work.old) × ((k : ℕ) → k < n → get_or work.old k 0 ≡ 0) }
    ensures work_len_unchanged { length work.new ≡ length work.old }
    ensures value { result ≡ lacking n index.now (lowest (misplaced n index.now) 0 (length index.now)) }
{
    // Not a `find`: it writes down what it has seen, and of what a closure writes a proof knows nothing.
    for p in 0..index.len() {
        let k = index[p] as usize;
        if n <= k || work[k] != UNSEEN {
            return Some(p);
        }
        work[k] = 1;
    }
    if index.len() < n {
        return Some(index.len());
    }
    None
}
