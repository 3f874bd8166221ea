// The check of a store against its rules.
ghost use Rattle.std.specs.Prelude.{◌≡◌, ℕ, ◌<◌, ◌≤◌, map, length, Some, Decides};
ghost use Rattle.std.specs.List.{All, Any};
ghost use Rattle.store.specs.declared.span.Span.{Span};
ghost use Rattle.store.specs.declared.term.Term.{Term};
ghost use Rattle.store.specs.Rules.{NamedBefore, TermRules, StoreRules, StoreChecked};
ghost use Rattle.store.specs.Spans.{Fits, Laid, cells_of};
ghost use Rattle.store.specs.Tables.{tables, term_at, recorded_or};
ghost use Rattle.store.specs.Terms.{follows, of_children, Listed, Childless};

use crate::fault::{Culprit, Fault, Refusal};
use crate::span::{Span, cut};
use crate::store::Store;
use crate::term::{HasVar, Term, TermKind};

const MOST_TERMS: usize = 4096;

const MOST_NODES: usize = 4096;

const MOST_CELLS: usize = 16384;

const MOST_SYMBOLS: usize = 4096;

const MOST_NAME_BYTES: usize = 65536;

// What has a span in some table.
pub(crate) trait Spanned: Copy {
    ghost lies: { Self → Span };

    fn span(self) -> Span
        ensures { result ≡ lies self };
}

impl Spanned for Term {
    ghost lies = { λ x. x.child_ids };

    fn span(self) -> Span {
        self.child_ids
    }
}

impl Spanned for Span {
    ghost lies = { λ s. s };

    fn span(self) -> Span {
        self
    }
}

impl Span {
    fn fits(self, size: usize, last: usize, end: usize) -> bool
        ensures { Decides result (Fits size last end self) }
    {
        if self.offset < last || self.offset > size || self.len > size - self.offset {
            return false;
        }
        self.len == 0 || end <= self.offset
    }
}

// Whether the spans lie inside a table of this size, sorted by offset, with no cell in two of them.
fn are_laid<T: Spanned>(items: &[T], size: usize) -> bool
    ensures { Decides result (Laid (map T.Spanned.lies items.now) size) }
{
    // A loop: the last offset and the furthest end go along, and it ends at the first span that does not fit.
    let mut last = 0;
    let mut end = 0;
    for item in items {
        let span = item.span();
        if !span.fits(size, last, end) {
            return false;
        }
        if span.len > 0 {
            end = span.offset + span.len;
        }
        last = span.offset;
    }
    true
}

fn all_below(kids: &[usize], t: usize) -> bool
    ensures { Decides result (All (λ c. c < t) kids.now) }
{
    kids.iter().all(|c| *c < t)
}

fn is_listed(kind: TermKind, symbols: usize) -> bool
    ensures { Decides result (Listed kind symbols) }
{
    match kind {
        TermKind::App(f) => f < symbols,
        _ => true,
    }
}

fn may_have(kind: TermKind, children: usize) -> bool
    ensures { Decides result (Childless kind children) }
{
    match kind {
        TermKind::Var(_) => children == 0,
        _ => true,
    }
}

impl Store<'_> {
    fn is_small(self) -> bool
        ensures { Decides result ((length (tables self.entry).terms ≤ 4096) × (length (tables self.entry).nodes ≤ 4096) × (length (tables self.entry).cells ≤ 16384) × (length (tables self.entry).symbols ≤ 4096) × (length (tables self.entry).names ≤ 65536)) }
    {
        self.terms.len() <= MOST_TERMS
            && self.nodes.len() <= MOST_NODES
            && self.cells.len() <= MOST_CELLS
            && self.symbols.len() <= MOST_SYMBOLS
            && self.names.len() <= MOST_NAME_BYTES
    }

    fn are_names_laid(self) -> bool
        ensures { Decides result (Laid (tables self.entry).symbols (length (tables self.entry).names)) }
    {
        are_laid(self.symbols, self.names.len())
    }

    fn has_text(self, symbol: Span, name: &[u8]) -> bool
        ensures { Decides result (cells_of (tables self.entry).names symbol ≡ Some name.now) }
    {
        cut(self.names, symbol) == Some(name)
    }

    fn is_any_named(self, symbols: &[Span], name: &[u8]) -> bool
        ensures { Decides result (Any (λ s. cells_of (tables self.entry).names s ≡ Some name.now) symbols.now) }
    {
        symbols.iter().any(|s| self.has_text(*s, name))
    }

    fn is_named_before(self, symbol: usize) -> bool
        ensures { Decides result (NamedBefore (tables self.entry) symbol) }
    {
        // A match: what `is_some_and` ensures splits no case in the proof.
        match self.name(symbol) {
            Some(name) => self.is_any_named(&self.symbols[..symbol], name),
            None => false,
        }
    }

    fn are_names_distinct(self) -> bool
        ensures { Decides result ((j : ℕ) → j < length (tables self.entry).symbols → NamedBefore (tables self.entry) j → ⊥) }
    {
        self.symbols
            .iter()
            .enumerate()
            .all(|(j, _)| !self.is_named_before(j))
    }

    // What the children's records make of an application's.
    fn of_children(self, kids: &[usize], missing: HasVar) -> HasVar
        ensures { result ≡ of_children (map (recorded_or missing (tables self.entry)) kids.now) }
    {
        // A loop: the first unknown child ends it, and the proof of a `fold` with a closure that reads the store does not close.
        let mut found = HasVar::No;
        for c in kids {
            let own = self.has_var_or(*c, missing);
            if own == HasVar::Unknown {
                return own;
            }
            found = found.with(own);
        }
        found
    }

    // What follows from a term's kind and children; a missing child counts as this record.
    pub fn follows(self, kind: TermKind, kids: &[usize], missing: HasVar) -> HasVar
        ensures { result ≡ follows kind (map (recorded_or missing (tables self.entry)) kids.now) }
    {
        match kind {
            TermKind::Var(_) => HasVar::Yes,
            TermKind::App(_) => self.of_children(kids, missing),
            TermKind::Quant(_) => HasVar::Unknown,
        }
    }

    fn keeps_rules(self, t: usize, term: Term) -> bool
        ensures { Decides result (TermRules (tables self.entry) t term) }
    {
        let kids = self.kids(term);
        if !all_below(kids, t) {
            return false;
        }
        if !may_have(term.kind, term.child_ids.len) {
            return false;
        }
        if !is_listed(term.kind, self.symbols.len()) {
            return false;
        }
        term.has_var == self.follows(term.kind, kids, HasVar::Unknown)
    }

    fn are_terms_ruled(self) -> bool
        ensures { Decides result ((t : ℕ) (x : Term) → term_at (tables self.entry) t ≡ Some x → TermRules (tables self.entry) t x) }
    {
        self.terms
            .iter()
            .enumerate()
            .all(|(t, term)| self.keeps_rules(t, *term))
    }

    fn are_owners_listed(self) -> bool
        ensures { Decides result (All (λ n. n.owner < length (tables self.entry).terms) (tables self.entry).nodes) }
    {
        self.nodes.iter().all(|n| n.owner < self.terms.len())
    }

    fn keeps_all(self) -> bool
        ensures { Decides result (StoreRules (tables self.entry)) }
    {
        // No chain of `&&`: its proof does not close, since what a call before a `&&` decided is lost behind the next.
        if !self.is_small() {
            return false;
        }
        if !are_laid(self.terms, self.cells.len()) {
            return false;
        }
        if !self.are_names_laid() {
            return false;
        }
        if !self.are_names_distinct() {
            return false;
        }
        if !self.are_terms_ruled() {
            return false;
        }
        self.are_owners_listed()
    }

    // Refuses a store that breaks a rule or a limit.
    pub fn check(self) -> Result<(), Fault>
        ensures { StoreChecked (tables self.entry) result }
    {
        if self.keeps_all() {
            Ok(())
        } else {
            Err(Fault::finder(Refusal::StoreBroken, Culprit::Nothing))
        }
    }
}
