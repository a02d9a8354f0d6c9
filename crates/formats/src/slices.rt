// Parts of slices.
ghost use Rattle.std.specs.Prelude.{◌≡◌, drop, slice_index};

// What stands from place `n` on: nothing where that is past the end.
pub fn behind<T>(items: &[T], n: usize) -> &[T]
    ensures { result.now ≡ drop n items.now }
{
    items.get(n..).unwrap_or(&[])
}

// The first number, 0 where there is none, and those behind it.
pub fn split_first(numbers: &[u64]) -> (u64, &[u64])
    ensures first { result.0 ≡ slice_index numbers.now 0 }
    ensures rest { result.1.now ≡ drop 1 numbers.now }
{
    match numbers.split_first() {
        Some((first, rest)) => (*first, rest),
        None => (0, numbers),
    }
}
