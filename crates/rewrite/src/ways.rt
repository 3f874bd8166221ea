// A table of pairs, each read both ways.
ghost use Rattle.std.specs.Prelude.{◌≡◌, ◌*◌, ◌≤◌, length, count_by};
ghost use Rattle.rewrite.specs.Kinds.{leaves, turned, one_way, ways, Reaches};
ghost use Rattle.store.specs.Tables.{tables};

use request::Pair;
use std::ops::ControlFlow;
use store::Store;

// Whether it is a proper pair that leaves from a node of this term.
fn leaves(store: Store, pair: Pair, term: usize) -> bool
    ensures { result ≡ leaves (tables store.entry) pair term }
{
    pair.is_proper(store) && store.is_owned(pair.from, term)
}

fn turned(pair: Pair) -> Pair
    ensures { result ≡ turned pair }
{
    Pair {
        from: pair.to,
        to: pair.from,
    }
}

// Passes over one way, where some are left to pass over.
fn pass(store: Store, pair: Pair, term: usize, left: usize) -> ControlFlow<Pair, usize>
    ensures { Reaches (one_way (tables store.entry) pair term) left result }
{
    if !leaves(store, pair, term) {
        return ControlFlow::Continue(left);
    }
    match left.checked_sub(1) {
        Some(more) => ControlFlow::Continue(more),
        None => ControlFlow::Break(pair),
    }
}

// Breaks at the way with this number that leaves from a node of this term, or tells how many are left to pass over behind these pairs.
// A loop: a chain of iterators over both readings says the same, and took up to 1.9 times the time.
pub(crate) fn pass_over(
    store: Store,
    pairs: &[Pair],
    term: usize,
    idx: usize,
) -> ControlFlow<Pair, usize>
    ensures { Reaches (ways (tables store.entry) pairs.now term) idx result }
{
    let mut left = idx;
    for pair in pairs {
        left = pass(store, *pair, term, left)?;
        left = pass(store, turned(*pair), term, left)?;
    }
    ControlFlow::Continue(left)
}

// Two counts, one for each reading: the count of a `flat_map` over both has no bound in a proof, and a closure for the reading needs a
// clause on what it gives.
fn count_along(store: Store, pairs: &[Pair], term: usize) -> usize
    ensures { result ≡ count_by (λ p. leaves (tables store.entry) p term) pairs.now }
{
    pairs
        .iter()
        .filter(|pair| leaves(store, **pair, term))
        .count()
}

fn count_against(store: Store, pairs: &[Pair], term: usize) -> usize
    ensures { result ≡ count_by (λ p. leaves (tables store.entry) (turned p) term) pairs.now }
{
    pairs
        .iter()
        .filter(|pair| leaves(store, turned(**pair), term))
        .count()
}

// How many ways leave from a node of this term.
pub(crate) fn count_ways(store: Store, pairs: &[Pair], term: usize) -> usize
    ensures count { result ≡ length (ways (tables store.entry) pairs.now term) }
    ensures few { result ≤ 2 * length pairs.now }
{
    count_along(store, pairs, term) + count_against(store, pairs, term)
}
