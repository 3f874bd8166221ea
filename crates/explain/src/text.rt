// A request as it is read, line by line.
ghost use Rattle.std.specs.Prelude.{◌≡◌, [], ◌∷◌, ◌++◌, None, length, vec_len, OnOk, IfErr};
ghost use Rattle.explain.specs.Held.{empty};
ghost use Rattle.explain.specs.Once.{Once};
ghost use Rattle.explain.specs.Read.{logged, bound_items, bound_by, asked_by, Untold};
ghost use Rattle.request.specs.Asked.{asked};
ghost use Rattle.request.specs.Bindings.{bindings};

use crate::expected::Expected;
use crate::host_text::HostText;
use crate::once::set_once;
use crate::tables::StoreText;
use kind::Kind;
use request::{ENodeIdx, LogEntry, MatchKind, Pair, Request, TermIdx};
use std::alloc::{AllocError, Global};
use std::fmt;
use store::Span;

// No term has this number. A request's pattern is a plain number, so none is one too.
const NO_TERM: usize = usize::MAX;

// What the pattern's variables are bound to. A request borrows its bindings, so a program holds them in an enum of its own.
#[derive(Drop)]
pub enum Bindings {
    Terms(Vec<TermIdx>),
    Nodes(Vec<ENodeIdx>),
}

impl Bindings {
    fn bound(&self) -> MatchKind<'_>
        ensures { bindings result ≡ bound_items self.now }
    {
        match self {
            Bindings::Terms(items) => MatchKind::Terms(items.as_slice()),
            Bindings::Nodes(items) => MatchKind::Nodes(items.as_slice()),
        }
    }
}

#[derive(Clone, Copy)]
pub enum Action {
    Find {
        kind: Kind,
        part: usize,
        entry: usize,
    },
    Round {
        kind: Kind,
    },
    Offers(Query),
}

// What a rewriter over an entry's pairs is asked: what it offers at a term and a pattern term.
#[derive(Clone, Copy)]
pub struct Query {
    pub kind: Kind,
    pub entry: usize,
    pub term: usize,
    pub pattern_term: usize,
}

impl fmt::Display for Query {
    fn fmt<W: fmt::Write>(&self, f: &mut fmt::Formatter<W>) -> fmt::Result {
        write!(
            f,
            "offers {} {} {} {}",
            self.kind, self.entry, self.term, self.pattern_term
        )
    }
}

#[derive(Drop)]
pub struct RequestText {
    pub store: StoreText,
    pub host: HostText,
    pattern: Option<usize>,
    bindings: Option<Bindings>,
    entries: Vec<LogEntry>,
    pairs: Vec<Pair>,
    actions: Vec<Action>,
}

impl RequestText {
    pub fn new(heap: Global) -> RequestText
        ensures store { result.store ≡ empty }
        ensures host { Untold result.host }
        ensures once { (result.pattern ≡ None) × (result.bindings ≡ None) }
        ensures lists { (result.entries.items ≡ []) × (result.pairs.items ≡ []) × (result.actions.items ≡ []) }
    {
        RequestText {
            store: StoreText::new(heap),
            host: HostText::new(heap),
            pattern: None,
            bindings: None,
            entries: Vec::new(heap),
            pairs: Vec::new(heap),
            actions: Vec::new(heap),
        }
    }

    pub fn set_pattern(&mut self, term: usize) -> Result<(), Expected>
        ensures once { Once result self.old.pattern self.new.pattern term }
        ensures refusal { IfErr result (λ e. e ≡ Expected.OnePattern) }
    {
        set_once(&mut self.pattern, term, Expected::OnePattern)
    }

    pub fn set_bindings(&mut self, bindings: Bindings) -> Result<(), Expected>
        ensures once { Once result self.old.bindings self.new.bindings bindings }
        ensures refusal { IfErr result (λ e. e ≡ Expected.OneBindings) }
    {
        set_once(&mut self.bindings, bindings, Expected::OneBindings)
    }

    pub fn add_entry(&mut self, node: usize, pairs: &[Pair]) -> Result<(), AllocError>
        ensures entries { OnOk result (self.new.entries.items ≡ self.old.entries.items ++ (logged node (vec_len self.old.pairs) (length pairs.now) ∷ [])) }
        ensures pairs { OnOk result (self.new.pairs.items ≡ self.old.pairs.items ++ pairs.now) }
    {
        let span = Span {
            offset: self.pairs.len(),
            len: pairs.len(),
        };
        self.pairs.extend_from_slice(pairs)?;
        self.entries.push(LogEntry { node, pairs: span })?;
        Ok(())
    }

    pub fn add_action(&mut self, action: Action) -> Result<(), AllocError>
        ensures { OnOk result (self.new.actions.items ≡ self.old.actions.items ++ (action ∷ [])) }
    {
        self.actions.push(action)?;
        Ok(())
    }

    // What to do, in order.
    pub fn actions(&self) -> &[Action]
        ensures { result.now ≡ self.now.actions.items }
    {
        self.actions.as_slice()
    }

    fn bound(&self) -> MatchKind<'_>
        ensures { bindings result ≡ bound_by self.now.bindings }
    {
        self.bindings
            .as_ref()
            .map_or(MatchKind::Terms(&[]), |bindings| bindings.bound())
    }

    // The request that the lines so far make.
    pub fn request(&self) -> Request<'_>
        ensures { asked result ≡ asked_by self.now }
    {
        Request {
            store: self.store.store(),
            pattern: self.pattern.unwrap_or(NO_TERM),
            bound: self.bound(),
            entries: self.entries.as_slice(),
            pairs: self.pairs.as_slice(),
        }
    }
}
