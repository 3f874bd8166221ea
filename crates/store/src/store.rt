// A store: the tables of terms, nodes and symbols that a request speaks of.
// Items name one another by number: the tables are what is given and checked, terms are shared, and the core has no heap.
ghost use Rattle.std.specs.Prelude.{◌≡◌, Some, codes, Decides};
ghost use Rattle.std.specs.List.{slice_get};
ghost use Rattle.std.specs.Option.{option_map};
ghost use Rattle.store.specs.Tables.{tables, term_at, children_of, kids, owner_of, name_of, recorded, recorded_or, is_the, Closed};

use crate::span::{Span, cut, lookup};
use crate::term::{ENode, HasVar, Term};

// Clauses read it by `tables`: a struct that is Copy and has a lifetime can have no model.
#[derive(Clone, Copy)]
pub struct Store<'a> {
    pub terms: &'a [Term],
    pub nodes: &'a [ENode],
    pub cells: &'a [usize],
    pub symbols: &'a [Span],
    pub names: &'a [u8],
}

impl<'a> Store<'a> {
    pub fn term(self, t: usize) -> Option<Term>
        ensures { result ≡ term_at (tables self.entry) t }
    {
        lookup(self.terms, t)
    }

    // The children of a term; none where it is missing or its span lies outside the cells.
    pub fn children(self, t: usize) -> Option<&'a [usize]>
        ensures { option_map (λ x. x.now) result ≡ children_of (tables self.entry) t }
    {
        let term = self.term(t)?;
        cut(self.cells, term.child_ids)
    }

    pub fn owner(self, node: usize) -> Option<usize>
        ensures { result ≡ owner_of (tables self.entry) node }
    {
        lookup(self.nodes, node).map(|n| n.owner)
    }

    // Whether the term owns the node.
    pub fn is_owned(self, node: usize, term: usize) -> bool
        ensures { result ≡ is_the (owner_of (tables self.entry) node) term }
    {
        self.owner(node) == Some(term)
    }

    pub fn name(self, symbol: usize) -> Option<&'a [u8]>
        ensures { option_map (λ x. x.now) result ≡ name_of (tables self.entry) symbol }
    {
        let span = lookup(self.symbols, symbol)?;
        cut(self.names, span)
    }

    // Whether this is the symbol named "if".
    pub fn is_if(self, symbol: usize) -> bool
        ensures { Decides result (name_of (tables self.entry) symbol ≡ Some (codes "if")) }
    {
        self.name(symbol) == Some(b"if".as_slice())
    }

    // What is recorded of a term's free variables; unknown for a missing term.
    pub fn has_var(self, t: usize) -> HasVar
        ensures { result ≡ recorded (tables self.entry) t }
    {
        self.has_var_or(t, HasVar::Unknown)
    }

    // The same, with what a missing term counts as.
    pub(crate) fn has_var_or(self, t: usize, missing: HasVar) -> HasVar
        ensures { result ≡ recorded_or missing (tables self.entry) t }
    {
        self.term(t).map_or(missing, |term| term.has_var)
    }

    pub fn is_closed(self, t: usize) -> bool
        ensures { Decides result (Closed (tables self.entry) t) }
    {
        self.has_var(t) == HasVar::No
    }

    // The children of a term; none where its span lies outside the cells.
    pub fn kids(self, term: Term) -> &'a [usize]
        ensures { result.now ≡ kids (tables self.entry) term }
    {
        cut(self.cells, term.child_ids).unwrap_or(&[])
    }
}
