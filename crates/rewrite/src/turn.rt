// The next logged pair whose turn it is.
ghost use Rattle.std.specs.Prelude.{◌≡◌, ◌<◌, length, drop, position, IfSome};
ghost use Rattle.request.specs.Pairs.{is_proper};
ghost use Rattle.rewrite.specs.Kinds.{upcoming};
ghost use Rattle.store.specs.Tables.{tables};

use request::Pair;
use store::Store;

#[derive(Clone, Copy)]
pub struct Turn {
    pub number: usize,
    pub pair: Pair,
}

fn first_proper(store: Store, pairs: &[Pair]) -> Option<usize>
    ensures { result ≡ position (is_proper (tables store.entry)) pairs.now }
{
    pairs.iter().position(|pair| pair.is_proper(store))
}

// The first proper pair that is not passed yet.
pub(crate) fn next_turn(store: Store, pairs: &[Pair], passed: usize) -> Option<Turn>
    ensures next { result ≡ upcoming (tables store.entry) passed (drop passed pairs.now) }
    ensures early { IfSome result (λ u. u.number < length pairs.now) }
{
    let left = pairs.get(passed..)?;
    let skipped = first_proper(store, left)?;
    Some(Turn {
        number: passed + skipped,
        pair: left[skipped],
    })
}
