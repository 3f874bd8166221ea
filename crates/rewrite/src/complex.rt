// ComplexEq: the logged pairs in any order and both ways, as often as wanted; with them, for some, the booked ones.
ghost use Rattle.std.specs.Prelude.{◌≡◌, ◌++◌};
ghost use Rattle.rewrite.specs.Keeping.{complex_rules};
ghost use Rattle.rewrite.specs.Kinds.{ways, complex};
ghost use Rattle.rewrite.specs.Meaning.{Steady};
ghost use Rattle.std.specs.List.{slice_get};
ghost use Rattle.store.specs.Tables.{Tables, tables};

use crate::coupling::Coupling;
use crate::offered::Offered;
use crate::query::Query;
use crate::rewriter::EqRewriter;
use crate::ways::{count_ways, pass_over};
use host::Host;
use request::Pair;
use std::ops::ControlFlow;
use store::Store;

#[derive(Clone, Copy)]
pub struct ComplexEq<'a> {
    own: &'a [Pair],
    booked: &'a [Pair],
}

impl<'a> ComplexEq<'a> {
    pub fn new(own: &'a [Pair], booked: &'a [Pair]) -> Self
        ensures own { result.own.now ≡ own.now }
        ensures booked { result.booked.now ≡ booked.now }
        ensures steady { (S : Tables) → Steady (complex own.now booked.now S) }
    {
        ComplexEq { own, booked }
    }

    // The offer with this number, as a pair from its near end.
    fn way(self, store: Store, term: usize, idx: usize) -> Option<Pair>
        ensures { result ≡ slice_get (ways (tables store.entry) (self.entry.own.now ++ self.entry.booked.now) term) idx }
    {
        match pass_over(store, self.own, term, idx) {
            ControlFlow::Break(way) => Some(way),
            ControlFlow::Continue(left) => pass_over(store, self.booked, term, left).break_value(),
        }
    }
}

impl<'a> EqRewriter for ComplexEq<'a> {
    ghost rewriter = { λ x S. complex x.own.now x.booked.now S };

    ghost state = { λ _. 0 };

    ghost rules = { λ x S. complex_rules x.own.now x.booked.now S };

    fn coupling(&self) -> Coupling {
        Coupling::SwappedEqs
    }

    fn forbid_dups(&self) -> bool {
        false
    }

    // It has one state only.
    fn reset(&mut self) {}

    fn mark(&self) -> usize {
        0
    }

    fn back(&mut self, mark: usize) {}

    fn finished(&self, store: Store) -> bool {
        true
    }

    // The two queries are inlined: a call that is handed the query by reference would keep a host's list that no one reads, and each
    // host is made by clearing its list.
    #[inline(always)]
    fn possible_rewrite_count<H: Host>(&mut self, query: &Query<'_, H>) -> Option<Offered> {
        let near = self.way(query.store, query.blame, 0)?;
        Some(Offered {
            from: near.from,
            count: count_ways(query.store, self.own, query.blame)
                + count_ways(query.store, self.booked, query.blame),
        })
    }

    #[inline(always)]
    fn possible_rewrite<H: Host>(
        &self,
        query: &Query<'_, H>,
        mark: usize,
        idx: usize,
    ) -> Option<usize> {
        self.way(query.store, query.blame, idx).map(|way| way.to)
    }
}
