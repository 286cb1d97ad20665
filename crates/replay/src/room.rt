// The lent rooms, and what they hold before a call: a word or a number of its own at each place, so that places exchanged show too.
use crate::input::Fault;

// So much of a list.
pub fn cut<T>(list: &mut [T], n: u32) -> Result<&mut [T], Fault> {
    list.get_mut(..n as usize).ok_or(Fault::Large)
}

// Each place has what comes after that of the place before it.
fn mark<T: Copy, F: Fn(T) -> T>(list: &mut [T], first: T, after: F)
    requires { F.IsAlwaysCallable after }
{
    let mut next = first;
    for place in list.iter_mut() {
        *place = next;
        next = after(next);
    }
}

// Place k: a5a5a5a5 + k.
pub fn words(list: &mut [u32]) {
    mark(list, 0xa5a5_a5a5, |x| x.wrapping_add(1));
}

// Place k: -7.5 - k.
pub fn numbers(list: &mut [f64]) {
    mark(list, -7.5, |x| x - 1.0);
}
