// The tables of a store, as they are read.
ghost use Rattle.std.specs.Prelude.{◌≡◌, ◌<◌, ◌≤◌, length, MatchResult, OnOk};
ghost use Rattle.explain.specs.Held.{empty, with_symbol, with_term, with_mark, with_node};
ghost use Rattle.store.specs.Tables.{tables};

use crate::expected::Expected;
use std::alloc::{AllocError, Global};
use std::marker::Model;
use store::{ENode, HasVar, Span, Store, Term, TermKind};

// `limits` keeps like tables: the two are programs, and a library for what they share would be longer than it.
#[derive(Drop)]
pub struct StoreText {
    terms: Vec<Term>,
    nodes: Vec<ENode>,
    cells: Vec<usize>,
    symbols: Vec<Span>,
    names: Vec<u8>,
}

// Clauses see it as the tables of a store.
impl Model for StoreText {
    ghost use Rattle.store.specs.Tables.{Tables};

    ghost Value = { Tables };

    ghost view = { λ s. record { terms = s.terms.items; nodes = s.nodes.items; cells = s.cells.items; symbols = s.symbols.items; names = s.names.items } };
}

impl StoreText {
    pub fn new(heap: Global) -> StoreText
        ensures { result ≡ empty }
    {
        StoreText {
            terms: Vec::new(heap),
            nodes: Vec::new(heap),
            cells: Vec::new(heap),
            symbols: Vec::new(heap),
            names: Vec::new(heap),
        }
    }

    pub fn add_symbol(&mut self, name: &[u8]) -> Result<(), AllocError>
        ensures { OnOk result (self.new ≡ with_symbol self.old name.now) }
    {
        let offset = self.names.len();
        self.names.extend_from_slice(name)?;
        self.symbols.push(Span {
            offset,
            len: name.len(),
        })?;
        Ok(())
    }

    pub fn add_term(&mut self, kind: TermKind, children: &[usize]) -> Result<(), AllocError>
        ensures { OnOk result (self.new ≡ with_term self.old kind children.now) }
    {
        // A child that is no earlier term is left to the check, which refuses it.
        let has_var = self.store().follows(kind, children, HasVar::No);
        let child_ids = Span {
            offset: self.cells.len(),
            len: children.len(),
        };
        self.cells.extend_from_slice(children)?;
        self.terms.push(Term {
            kind,
            has_var,
            child_ids,
        })?;
        Ok(())
    }

    pub fn mark(&mut self, term: usize, has_var: HasVar) -> Result<(), Expected>
        ensures { MatchResult result (λ _. (term < length self.old.terms) × (self.new ≡ with_mark self.old term has_var)) (λ e. (length self.old.terms ≤ term) × (e ≡ Expected.GivenTerm) × (self.new ≡ self.old)) }
    {
        let term = self.terms.get_mut(term).ok_or(Expected::GivenTerm)?;
        term.has_var = has_var;
        Ok(())
    }

    pub fn add_node(&mut self, owner: usize) -> Result<(), AllocError>
        ensures { OnOk result (self.new ≡ with_node self.old owner) }
    {
        self.nodes.push(ENode { owner })?;
        Ok(())
    }

    pub fn store(&self) -> Store<'_>
        ensures { tables result ≡ self.now }
    {
        Store {
            terms: self.terms.as_slice(),
            nodes: self.nodes.as_slice(),
            cells: self.cells.as_slice(),
            symbols: self.symbols.as_slice(),
            names: self.names.as_slice(),
        }
    }
}
