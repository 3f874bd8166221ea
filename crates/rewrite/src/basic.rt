// BasicEq: the logged pairs, each once and in their order.
ghost use Rattle.std.specs.Prelude.{◌≡◌};
ghost use Rattle.rewrite.specs.Keeping.{basic_rules};
ghost use Rattle.rewrite.specs.Kinds.{basic};

use crate::coupling::Coupling;
use crate::offered::Offered;
use crate::query::Query;
use crate::rewriter::EqRewriter;
use crate::turn::next_turn;
use host::Host;
use request::Pair;
use store::Store;

#[derive(Clone, Copy)]
pub struct BasicEq<'a> {
    pairs: &'a [Pair],
    at: usize,
}

impl<'a> BasicEq<'a> {
    pub fn new(pairs: &'a [Pair]) -> Self
        ensures pairs { result.pairs.now ≡ pairs.now }
        ensures first { result.at ≡ 0 }
    {
        BasicEq { pairs, at: 0 }
    }
}

impl<'a> EqRewriter for BasicEq<'a> {
    ghost rewriter = { λ x S. basic x.pairs.now S };

    ghost state = { λ x. x.at };

    ghost rules = { λ x S. basic_rules x.pairs.now S };

    fn coupling(&self) -> Coupling {
        Coupling::Exact
    }

    fn forbid_dups(&self) -> bool {
        false
    }

    fn reset(&mut self) {
        self.at = 0;
    }

    fn mark(&self) -> usize {
        self.at
    }

    fn back(&mut self, mark: usize) {
        self.at = if mark <= self.pairs.len() { mark } else { 0 };
    }

    fn finished(&self, store: Store) -> bool {
        next_turn(store, self.pairs, self.at).is_none()
    }

    fn possible_rewrite_count<H: Host>(&mut self, query: &Query<'_, H>) -> Option<Offered> {
        let turn = next_turn(query.store, self.pairs, self.at)?;
        if !query.store.is_owned(turn.pair.from, query.blame) {
            return None;
        }
        self.at = turn.number + 1;
        Some(Offered {
            from: turn.pair.from,
            count: 1,
        })
    }

    fn possible_rewrite<H: Host>(
        &self,
        query: &Query<'_, H>,
        mark: usize,
        idx: usize,
    ) -> Option<usize> {
        let turn = next_turn(query.store, self.pairs, mark)?;
        (idx == 0 && query.store.is_owned(turn.pair.from, query.blame)).then_some(turn.pair.to)
    }
}
