// What a call answered and left, against what the file has next: the same, or not.
use crate::input::{Fault, Stored};
use std::io::Read;

// A list, place by place.
fn alike<T: Stored, F: Fn(T, T) -> bool, R: Read>(
    file: &mut R,
    got: &[T],
    are: F,
) -> Result<bool, Fault>
    requires { F.IsAlwaysCallable are }
{
    let mut all = true;
    for x in got {
        all = are(*x, T::read(file)?) && all;
    }
    Ok(all)
}

// Words, longs.
pub fn same<T: Stored + PartialEq, R: Read>(file: &mut R, got: &[T]) -> Result<bool, Fault> {
    alike(file, got, |x, stored| x == stored)
}

// Numbers bit for bit, a NaN with a NaN.
pub fn same_bits<R: Read>(file: &mut R, got: &[f64]) -> Result<bool, Fault> {
    alike(file, got, |x, stored| {
        float::bits(x) == float::bits(stored)
    })
}

// Numbers as numbers: 0 and -0 are equal, too.
pub fn same_numbers<R: Read>(file: &mut R, got: &[f64]) -> Result<bool, Fault> {
    alike(file, got, |x, stored| {
        x == stored || float::bits(x) == float::bits(stored)
    })
}
