// A request's tables, built up in vectors.
ghost use Rattle.std.specs.Prelude.{◌<◌, ◌^◌};

use request::{ENodeIdx, LogEntry, MatchKind, Pair, Request, TermIdx};
use std::alloc::{AllocError, Global};
use store::{ENode, HasVar, Span, Store, Term, TermKind};

pub const fn span(offset: usize, len: usize) -> Span {
    Span { offset, len }
}

// A request only borrows its bindings, so the tables hold them in an enum of their own.
#[derive(Drop)]
pub enum Bindings {
    ToTerms(Vec<TermIdx>),
    ToNodes(Vec<ENodeIdx>),
}

impl Bindings {
    fn as_kind(&self) -> MatchKind<'_> {
        match self {
            Bindings::ToTerms(items) => MatchKind::Terms(items.as_slice()),
            Bindings::ToNodes(items) => MatchKind::Nodes(items.as_slice()),
        }
    }
}

// `explain` keeps like tables as it reads them. The two are programs, and a library for what they share, which is to lend them as a store,
// would be longer than it.
#[derive(Drop)]
pub struct Tables {
    pub terms: Vec<Term>,
    pub nodes: Vec<ENode>,
    pub cells: Vec<usize>,
    pub symbols: Vec<Span>,
    pub names: Vec<u8>,
    pub pattern: usize,
    pub bound: Bindings,
    pub entries: Vec<LogEntry>,
    pub pairs: Vec<Pair>,
}

impl Tables {
    pub fn new(heap: Global) -> Tables {
        Tables {
            terms: Vec::new(heap),
            nodes: Vec::new(heap),
            cells: Vec::new(heap),
            symbols: Vec::new(heap),
            names: Vec::new(heap),
            pattern: 0,
            bound: Bindings::ToTerms(Vec::new(heap)),
            entries: Vec::new(heap),
            pairs: Vec::new(heap),
        }
    }

    pub fn symbol(&mut self, name: &[u8]) -> Result<(), AllocError> {
        let place = span(self.names.len(), name.len());
        self.names.extend_from_slice(name)?;
        self.symbols.push(place)?;
        Ok(())
    }

    // A term with this record, its children in cells of their own.
    pub fn term(
        &mut self,
        kind: TermKind,
        has_var: HasVar,
        children: &[usize],
    ) -> Result<usize, AllocError> {
        let term = self.terms.len();
        let child_ids = span(self.cells.len(), children.len());
        self.cells.extend_from_slice(children)?;
        self.terms.push(Term {
            kind,
            has_var,
            child_ids,
        })?;
        Ok(term)
    }

    pub fn var(&mut self, number: usize) -> Result<usize, AllocError> {
        self.term(TermKind::Var(number), HasVar::Yes, &[])
    }

    pub fn quant(&mut self, children: &[usize]) -> Result<usize, AllocError> {
        self.term(TermKind::Quant(0), HasVar::Unknown, children)
    }

    pub fn app(&mut self, has_var: HasVar, children: &[usize]) -> Result<usize, AllocError> {
        self.term(TermKind::App(0), has_var, children)
    }

    // An application to copies of this term, one to copies of that application, and so on, so many times.
    // An array of the copies fits in memory.
    pub(crate) fn nested<const COPIES: usize>(
        &mut self,
        has_var: HasVar,
        term: usize,
        times: usize,
    ) -> Result<usize, AllocError>
        requires { COPIES < 2 ^ 60 }
    {
        let mut top = term;
        for _ in 0..times {
            top = self.app(has_var, &[top; COPIES])?;
        }
        Ok(top)
    }

    pub fn node(&mut self, owner: usize) -> Result<(), AllocError> {
        self.nodes.push(ENode { owner })?;
        Ok(())
    }

    // A new pattern with these parts, and entries enough for them.
    pub fn ask(&mut self, has_var: HasVar, parts: &[usize]) -> Result<(), AllocError> {
        self.pattern = self.app(has_var, parts)?;
        for _ in self.entries.len()..parts.len() {
            self.entry(0, span(0, 0))?;
        }
        Ok(())
    }

    pub fn entry(&mut self, node: usize, pairs: Span) -> Result<(), AllocError> {
        self.entries.push(LogEntry { node, pairs })?;
        Ok(())
    }

    pub fn pair(&mut self, from: usize, to: usize) -> Result<(), AllocError> {
        self.pairs.push(Pair { from, to })?;
        Ok(())
    }

    pub fn store(&self) -> Store<'_> {
        Store {
            terms: self.terms.as_slice(),
            nodes: self.nodes.as_slice(),
            cells: self.cells.as_slice(),
            symbols: self.symbols.as_slice(),
            names: self.names.as_slice(),
        }
    }

    pub fn request(&self) -> Request<'_> {
        Request {
            store: self.store(),
            pattern: self.pattern,
            bound: self.bound.as_kind(),
            entries: self.entries.as_slice(),
            pairs: self.pairs.as_slice(),
        }
    }
}

// A small admitted request. Terms: 0 a constant, 1 the variable 0, 2 an application to it, 3 the pattern with
// 2 as its part, 4 a quantifier. Nodes: 0 of term 0, 1 of term 0, 2 of term 1, 3 of term 4. The variable is
// bound to term 0, and the entry is of node 0.
pub fn small(heap: Global) -> Result<Tables, AllocError> {
    let mut t = Tables::new(heap);
    t.symbol(b"a")?;
    let constant = t.app(HasVar::No, &[])?;
    let variable = t.var(0)?;
    let part = t.app(HasVar::Yes, &[variable])?;
    t.ask(HasVar::Yes, &[part])?;
    let quantifier = t.quant(&[])?;
    t.node(constant)?;
    t.node(constant)?;
    t.node(variable)?;
    t.node(quantifier)?;
    t.bound = Bindings::ToTerms(vec![in heap; TermIdx(constant)]?);
    Ok(t)
}
