// Terms as the search sees them.
ghost use Rattle.std.specs.Prelude.{◌≡◌};
ghost use Rattle.matcher.specs.Machine.{PlaceIs};
ghost use Rattle.matcher.specs.Stepping.{taken_by};
ghost use Rattle.matcher.specs.Trees.{fits_as, child_at};
ghost use Rattle.request.specs.Asked.{asked};
ghost use Rattle.store.specs.Tables.{tables, term_at, owner_of};

use crate::level::{Place, Taken};
use request::Request;
use store::{HasVar, Store, TermKind, lookup};

// Whether kind and child count agree.
pub(crate) fn fits(store: Store, blame: usize, subpat: usize) -> bool
    ensures { result ≡ fits_as (term_at (tables store.entry) blame) (term_at (tables store.entry) subpat) }
{
    // A match: what `is_some_and` ensures splits no case in the proof.
    match (store.term(blame), store.term(subpat)) {
        (Some(b), Some(s)) => b.can_match(s),
        _ => false,
    }
}

// The offer of a node, if the term that owns it fits.
pub(crate) fn taken(store: Store, node: usize, subpat: usize) -> Option<Taken>
    ensures { result ≡ taken_by (tables store.entry) subpat node (owner_of (tables store.entry) node) }
{
    let term = store.owner(node)?;
    fits(store, term, subpat).then_some(Taken { node, term })
}

pub(crate) fn child(store: Store, term: usize, idx: usize) -> Option<usize>
    ensures { result ≡ child_at (tables store.entry) term idx }
{
    lookup(store.children(term).unwrap_or(&[]), idx)
}

// A variable that is bound stands for the term that it is bound to.
pub(crate) fn place(request: Request, subpat: usize) -> Option<Place>
    ensures { PlaceIs (asked request.entry) subpat result }
{
    let Some(term) = request.store.term(subpat) else {
        return Some(Place::Whole(subpat));
    };
    match (term.kind, term.has_var) {
        (TermKind::Var(v), _) => request.bound.bound_term(request.store, v).map(Place::Whole),
        (TermKind::App(_), HasVar::Yes | HasVar::Unknown) => Some(Place::Opened),
        _ => Some(Place::Whole(subpat)),
    }
}
