// Terms and nodes.
ghost use Rattle.std.specs.Prelude.{◌≡◌, [], ◌∷◌, Decides};
ghost use Rattle.store.specs.Terms.{CanMatch, of_children};

use crate::span::Span;

#[derive(Clone, Copy, PartialEq, Eq, Debug)]
pub enum TermKind {
    Var(usize),
    App(usize),
    Quant(usize),
}

// Whether a term holds a free variable; unknown where it holds a quantifier, which may bind it.
// Three words say it more plainly than an `Option<bool>`, since unknown is an answer and not a missing one.
#[derive(Clone, Copy, PartialEq, Eq, Debug)]
pub enum HasVar {
    No,
    Yes,
    Unknown,
}

impl HasVar {
    // What the two make of a term that holds both.
    pub(crate) fn with(self, other: HasVar) -> HasVar
        ensures { result ≡ of_children (self ∷ other ∷ []) }
    {
        match (self, other) {
            (HasVar::Unknown, _) | (_, HasVar::Unknown) => HasVar::Unknown,
            (HasVar::Yes, _) | (_, HasVar::Yes) => HasVar::Yes,
            _ => HasVar::No,
        }
    }
}

#[derive(Clone, Copy, PartialEq, Eq, Debug)]
pub struct Term {
    pub kind: TermKind,
    pub has_var: HasVar,
    pub child_ids: Span,
}

#[derive(Clone, Copy, PartialEq, Eq, Debug)]
pub struct ENode {
    pub owner: usize,
}

impl Term {
    // Whether the two have one kind and equally many children; the children may differ.
    pub fn can_match(self, other: Term) -> bool
        ensures { Decides result (CanMatch self other) }
    {
        self.kind == other.kind && self.child_ids.len == other.child_ids.len
    }
}
