// A list of at most four: the runs' own, so that what they judge by shares nothing with the lists of the engine, their equality least of all.
ghost use Rattle.std.specs.Prelude.{◌≡◌, [], length, take, min, nat_le, if◌then◌else◌};

// The first `count` of four items; the others are room, and the same in all lists of a kind, so that equal lists are equal values.
#[derive(Clone, Copy, PartialEq, Eq)]
pub struct Few<T> {
    pub count: usize,
    pub items: [T; 4],
}

impl<T: Copy> Few<T> {
    // The items that count; none where the count is above the room.
    pub fn as_slice(&self) -> &[T]
        ensures { result.now ≡ (if nat_le self.now.count (length self.now.items) then take self.now.count self.now.items else []) }
    {
        self.items.get(..self.count).unwrap_or(&[])
    }
}

// What `f` makes of the first four of the items, with `unused` in the room.
pub fn few_of<T: Copy, U: Copy, F: FnMut(T) -> U>(items: &[T], unused: U, mut f: F) -> Few<U>
    requires { (g : F) (x : _) → F.pre g x }
    ensures { result.count ≡ min (length items.now) 4 }
{
    let mut made = [unused; 4];
    for (room, item) in made.iter_mut().zip(items) {
        *room = f(*item);
    }
    Few {
        count: items.len().min(4),
        items: made,
    }
}
