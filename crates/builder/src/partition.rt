// The partition of a range by a position on an axis (rule C4), as the Rust's loop does it.
ghost use Rattle.std.specs.Prelude.{◌≡◌, ◌≤◌, length};
ghost use Rattle.lent.specs.Limits.{most_triangles};
ghost use Rattle.builder.specs.Partition.{parts, parted};
ghost use Rattle.builder.specs.Fallback.{separated};

use crate::{ordering, range};

// Whatever lies below the position stays on the left, all else is sent to the right end. The answer is how many are on the left. Both ends move, so the
// loop counts nothing.
#[tactic(auto, using(crate::proofs::Parting::turns))]
pub fn partition(triangles: &[f64], index: &mut [u32], axis: usize, position: f64) -> usize
    ensures { parts index.new result ≡ parted triangles.now axis position index.old }
{
    let mut left: usize = 0;
    let mut right = index.len();
    while left < right {
        if range::centroid_on(triangles, index[left], axis) < position {
            left += 1;
        } else {
            right -= 1;
            index.swap(left, right);
        }
    }
    left
}

// The partition, or, where it leaves one side empty, the range in order and its half.
pub fn separate(triangles: &[f64], index: &mut [u32], axis: usize, position: f64) -> usize
    requires { length index.old ≤ most_triangles }
    ensures { parts index.new result ≡ separated triangles.now axis position index.old }
{
    let left = partition(triangles, index, axis, position);
    if left == 0 || left == index.len() {
        ordering::put_in_order(triangles, index, axis);
        return index.len() / 2;
    }
    left
}
