// The places of a part: the occurrences of terms in it, in preorder.
ghost use Rattle.std.specs.Prelude.{◌≡◌, ℕ, ◌+◌, ◌<◌, ◌≤◌, List, ◌++◌, length, MatchResult};
ghost use Rattle.request.specs.Places.{Preorder, opened, variable_at};
ghost use Rattle.store.specs.Tables.{tables};

use store::{Fixed, Full, HasVar, Store, TermKind};

// At most 64 places, by the terms that stand there.
pub type Places = Fixed<usize, 64>;

// The children that are places of their own: those of an application that is not closed.
pub(crate) fn opened<'a>(store: Store<'a>, t: usize) -> &'a [usize]
    ensures { result.now ≡ opened (tables store.entry) t }
{
    let Some(term) = store.term(t) else {
        return &[];
    };
    match (term.kind, term.has_var) {
        (TermKind::App(_), HasVar::Yes | HasVar::Unknown) => store.kids(term),
        _ => &[],
    }
}

// The variable that a term is, if it is one.
pub(crate) fn variable_at(store: Store, t: usize) -> Option<usize>
    ensures { result ≡ variable_at (tables store.entry) t }
{
    match store.term(t)?.kind {
        TermKind::Var(v) => Some(v),
        _ => None,
    }
}

// Lists a term and all places below it, unless that would be over 64. It stops there, so shared terms cost it nothing.
pub(crate) fn walk(store: Store, t: usize, out: &mut Places) -> Result<(), Full>
    ensures { MatchResult result (λ _. (ts : List ℕ) × Preorder (tables store.entry) t ts × (out.new ≡ out.old ++ ts) × (length out.new ≤ 64)) (λ _. (ts : List ℕ) → Preorder (tables store.entry) t ts → 64 < length out.old + length ts) }
{
    out.push(t)?;
    for c in opened(store, t) {
        walk(store, *c, out)?;
    }
    Ok(())
}
