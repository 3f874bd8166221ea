// A request and what is read off it.
ghost use Rattle.std.specs.Prelude.{◌≡◌, ℕ, ◌<◌, ◌≤◌, List, length, MatchOption};
ghost use Rattle.request.specs.Asked.{asked, parts, entry_term, entry_pairs};
ghost use Rattle.request.specs.Places.{Preorder, variable_at, opened};
ghost use Rattle.std.specs.Option.{option_map};
ghost use Rattle.store.specs.Tables.{tables};

use crate::kinds::{LogEntry, MatchKind, Pair};
use crate::places::{Places, walk};
use store::{Store, cut, lookup};

// Clauses read it by `asked`, for the reason that a store is read by `tables`.
#[derive(Clone, Copy)]
pub struct Request<'a> {
    pub store: Store<'a>,
    pub pattern: usize,
    pub bound: MatchKind<'a>,
    pub entries: &'a [LogEntry],
    pub pairs: &'a [Pair],
}

impl<'a> Request<'a> {
    // The pattern's children; none where there is no pattern.
    pub fn parts(self) -> &'a [usize]
        ensures { result.now ≡ parts (asked self.entry) }
    {
        self.store.children(self.pattern).unwrap_or(&[])
    }

    // The term of an entry: its node's owner.
    pub fn entry_term(self, entry: usize) -> Option<usize>
        ensures { result ≡ entry_term (asked self.entry) entry }
    {
        let logged = lookup(self.entries, entry)?;
        self.store.owner(logged.node)
    }

    // The logged pairs of an entry.
    pub fn entry_pairs(self, entry: usize) -> Option<&'a [Pair]>
        ensures { option_map (λ x. x.now) result ≡ entry_pairs (asked self.entry) entry }
    {
        let logged = lookup(self.entries, entry)?;
        cut(self.pairs, logged.pairs)
    }

    // The places of a term in preorder; none where they are over 64.
    pub fn places(self, term: usize) -> Option<Places>
        ensures { MatchOption result ((ts : List ℕ) → Preorder (asked self.entry).store term ts → 64 < length ts) (λ p. Preorder (asked self.entry).store term p × (length p ≤ 64)) }
    {
        let mut out = Places::new(0);
        walk(self.store, term, &mut out).ok()?;
        Some(out)
    }
}
