// Up to so many elements, in fixed memory.
ghost use Rattle.std.specs.Prelude.{◌≡◌, ◌≤◌, ◌<◌, ◌+◌, ◌++◌, [], ◌∷◌, length, replicate, take, min, ⊤};
ghost use Rattle.std.specs.Cmp.{on_equiv, on_per};
ghost use Rattle.std.specs.Cmp.Lexicographic.{lists_equiv, lists_per, pointwise};

use std::alloc::AllocError;
use std::fmt;

// The first `count` of N items; the others are room that is not used.
pub struct Bounded<T, const N: usize> {
    pub count: usize,
    pub items: [T; N],
    ghost few: { count ≤ N },
    ghost full: { length items ≡ N },
}

impl<T: Copy, const N: usize> Copy for Bounded<T, N> {}

impl<T: Copy, const N: usize> Clone for Bounded<T, N> {
    ghost is_clone = { λ s r. r ≡ s };

    ghost is_infallible = { λ _. ⊤ };

    fn clone(&self) -> Result<Self, AllocError> {
        Ok(*self)
    }
}

// By the elements alone: what stands in the room behind them says nothing.
impl<T: Copy + PartialEq, const N: usize> PartialEq for Bounded<T, N> {
    ghost use Rattle.relational.specs.Elements.{elements};

    ghost eq = { λ b d. pointwise T.eq (elements b) (elements d) };

    ghost laws = { on_per elements (lists_per T.laws) };

    fn eq(&self, other: &Self) -> bool {
        self.as_slice() == other.as_slice()
    }
}

impl<T: Copy + Eq, const N: usize> Eq for Bounded<T, N> {
    ghost use Rattle.relational.specs.Elements.{elements};

    ghost laws = { on_equiv elements (lists_equiv T.Eq.laws) };
}

impl<T: Copy + fmt::Debug, const N: usize> fmt::Debug for Bounded<T, N> {
    fn fmt<W: fmt::Write>(&self, f: &mut fmt::Formatter<W>) -> fmt::Result {
        f.debug_list().entries(self.as_slice()).finish()
    }
}

impl<T: Copy, const N: usize> Bounded<T, N> {
    ghost use Rattle.relational.specs.Elements.{elements};
    ghost use Rattle.std.specs.List.{remove};

    // No element, with `unused` in the room.
    pub fn new(unused: T) -> Self
        ensures none { elements result ≡ [] }
        ensures count { result.count ≡ 0 }
        ensures filled { result.items ≡ replicate N unused }
    {
        Bounded {
            count: 0,
            items: [unused; N],
        }
    }

    pub fn as_slice(&self) -> &[T]
        ensures { result.now ≡ elements self.now }
    {
        let items = &self.items[..];
        &items[..self.count]
    }

    // Puts an element behind the others.
    pub fn push(&mut self, element: T)
        requires { self.old.count < N }
        ensures elements { elements self.new ≡ elements self.old ++ element ∷ [] }
        ensures count { self.new.count ≡ self.old.count + 1 }
    {
        self.items[self.count] = element;
        self.count += 1;
    }

    // Takes out the element at a place; those behind it close up.
    pub fn remove(&mut self, at: usize)
        requires { at < self.old.count }
        ensures elements { elements self.new ≡ remove (elements self.old) at }
        ensures count { self.new.count + 1 ≡ self.old.count }
    {
        let items = &mut self.items[..];
        items[at..self.count].rotate_left(1);
        self.count -= 1;
    }

    // Keeps the first `len` elements, or all where there are no more.
    pub fn truncate(&mut self, len: usize)
        ensures elements { elements self.new ≡ take len (elements self.old) }
        ensures count { self.new.count ≡ min len self.old.count }
    {
        self.count = self.count.min(len);
    }
}
