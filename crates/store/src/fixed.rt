// A list of at most N items that lies in an array: the core has fixed memory and no allocator.
// The crate arrayvec has such a list too, but no `new` that is given what fills the cells, and this type's calls are public.
ghost use Rattle.std.specs.Prelude.{◌≡◌, ◌<◌, ◌≤◌, [], ◌∷◌, ◌++◌, length, take, MatchOption, MatchResult};
ghost use Rattle.std.specs.List.{slice_get};

use crate::span::lookup;
use std::marker::Model;

#[derive(Drop)]
pub struct Fixed<T: Copy, const N: usize> {
    items: [T; N],
    len: usize,
}

impl<T: Copy, const N: usize> Model for Fixed<T, N> {
    ghost use Rattle.std.specs.Prelude.{◌≤◌, List, take};

    ghost Value = { List T };

    ghost view = { λ f. take f.len f.items };

    ghost invariant = { λ f. f.len ≤ N };
}

// There is no room for one item more.
#[derive(Clone, Copy, PartialEq, Eq, Debug)]
pub struct Full;

impl<T: Copy, const N: usize> Fixed<T, N> {
    // An empty list; `fill` lies in the cells that hold nothing yet.
    pub fn new(fill: T) -> Self
        ensures { result ≡ [] }
    {
        Fixed {
            items: [fill; N],
            len: 0,
        }
    }

    // One item more.
    pub fn push(&mut self, x: T) -> Result<(), Full>
        ensures { MatchResult result (λ _. (self.new ≡ self.old ++ x ∷ []) × (length self.old < N)) (λ _. (length self.old ≡ N) × (self.new ≡ self.old)) }
    {
        let at = self.len;
        if at >= N {
            return Err(Full);
        }
        self.items[at] = x;
        self.len = at + 1;
        Ok(())
    }

    pub fn count(&self) -> usize
        ensures count { result ≡ length self.now }
        ensures few { length self.now ≤ N }
    {
        self.len
    }

    pub fn as_slice(&self) -> &[T]
        ensures items { result.now ≡ self.now }
        ensures few { length self.now ≤ N }
    {
        &self.items[..self.len]
    }

    pub fn get(&self, i: usize) -> Option<T>
        ensures item { result ≡ slice_get self.now i }
        ensures few { length self.now ≤ N }
    {
        lookup(self.as_slice(), i)
    }

    // The last item, which is taken off.
    pub fn pop(&mut self) -> Option<T>
        ensures last { MatchOption result ((self.old ≡ []) × (self.new ≡ self.old)) (λ x. self.old ≡ self.new ++ x ∷ []) }
        ensures few { length self.old ≤ N }
    {
        self.len = self.len.checked_sub(1)?;
        Some(self.items[self.len])
    }

    // Keeps the first n items at most.
    pub fn truncate(&mut self, n: usize)
        ensures kept { self.new ≡ take n self.old }
        ensures few { length self.old ≤ N }
    {
        self.len = self.len.min(n);
    }
}
