// What a request is made of, besides its store.
ghost use Rattle.std.specs.Prelude.{◌≡◌};
ghost use Rattle.request.specs.Bindings.{bound_term, bound_count, bindings};
ghost use Rattle.request.specs.Pairs.{is_proper};
ghost use Rattle.store.specs.Tables.{tables};

use store::{Span, Store, lookup};

// A logged equality, by its nodes.
#[derive(Clone, Copy, PartialEq, Eq, Debug)]
pub struct Pair {
    pub from: usize,
    pub to: usize,
}

impl Pair {
    // Whether both ends are nodes of the store, and two.
    pub fn is_proper(self, store: Store) -> bool
        ensures { result ≡ is_proper (tables store.entry) self }
    {
        let nodes = store.nodes.len();
        self.from != self.to && self.from < nodes && self.to < nodes
    }
}

// An entry of the log: the blamed node, and its pairs in the table of pairs.
#[derive(Clone, Copy, PartialEq, Eq, Debug)]
pub struct LogEntry {
    pub node: usize,
    pub pairs: Span,
}

#[derive(Clone, Copy, PartialEq, Eq, Debug)]
pub struct TermIdx(pub usize);

#[derive(Clone, Copy, PartialEq, Eq, Debug)]
pub struct ENodeIdx(pub usize);

// What the pattern's variables are bound to: all terms, or all nodes, each of which stands for its owner.
#[derive(Clone, Copy)]
pub enum MatchKind<'a> {
    Terms(&'a [TermIdx]),
    Nodes(&'a [ENodeIdx]),
}

impl MatchKind<'_> {
    // How many items are bound.
    pub fn count(self) -> usize
        ensures { result ≡ bound_count (bindings self.entry) }
    {
        match self {
            MatchKind::Terms(items) => items.len(),
            MatchKind::Nodes(items) => items.len(),
        }
    }

    // The term that a variable stands for; none where no term of the store does.
    pub fn bound_term(self, store: Store, var: usize) -> Option<usize>
        ensures { result ≡ bound_term (tables store.entry) (bindings self.entry) var }
    {
        match self {
            MatchKind::Terms(items) => lookup(items, var).map(|item| item.0),
            // No `and_then`: its proof does not close.
            MatchKind::Nodes(items) => {
                let item = lookup(items, var)?;
                store.owner(item.0)
            }
        }
    }
}
