// A rewriter of a kind does what the rewriter in it does.
ghost use Rattle.std.specs.Prelude.{◌≡◌};
ghost use Rattle.kind.specs.Kinds.{of_kind, chosen, chosen_state, chosen_rules};
ghost use Rattle.store.specs.Tables.{Tables};

use crate::kind::{AnyEq, Kind};
use host::Host;
use request::Pair;
use rewrite::{BasicEq, ComplexEq, Coupling, CustomEq, EqRewriter, ForceEq, Offered, Query};
use store::Store;

// The same call to the rewriter in it, whichever it is.
macro_rules! each {
    ($any:expr, $r:ident => $call:expr) => {
        match $any {
            AnyEq::Basic($r) => $call,
            AnyEq::Complex($r) => $call,
            AnyEq::Custom($r) => $call,
            AnyEq::Force($r) => $call,
        }
    };
}

impl<'a> AnyEq<'a> {
    // Over an entry's own pairs; only ForceEq reads the booked ones too.
    pub fn new(kind: Kind, own: &'a [Pair], booked: &'a [Pair]) -> Self
        ensures first { (S : Tables) → chosen_state result ≡ (of_kind kind own.now booked.now S).first }
        ensures means { (S : Tables) → chosen result S ≡ of_kind kind own.now booked.now S }
    {
        match kind {
            Kind::Basic => AnyEq::Basic(BasicEq::new(own)),
            Kind::Complex => AnyEq::Complex(ComplexEq::new(own, &[])),
            Kind::Custom => AnyEq::Custom(CustomEq::new(ComplexEq::new(own, &[]))),
            Kind::Force => AnyEq::Force(ForceEq::new(ComplexEq::new(own, booked))),
        }
    }
}

impl<'a> EqRewriter for AnyEq<'a> {
    ghost rewriter = { chosen };

    ghost state = { chosen_state };

    ghost rules = { chosen_rules };

    fn coupling(&self) -> Coupling {
        each!(self, r => r.coupling())
    }

    fn forbid_dups(&self) -> bool {
        each!(self, r => r.forbid_dups())
    }

    fn reset(&mut self) {
        each!(self, r => r.reset())
    }

    fn mark(&self) -> usize {
        each!(self, r => r.mark())
    }

    fn back(&mut self, mark: usize) {
        each!(self, r => r.back(mark))
    }

    fn finished(&self, store: Store) -> bool {
        each!(self, r => r.finished(store))
    }

    fn possible_rewrite_count<H: Host>(&mut self, query: &Query<'_, H>) -> Option<Offered> {
        each!(self, r => r.possible_rewrite_count(query))
    }

    fn possible_rewrite<H: Host>(
        &self,
        query: &Query<'_, H>,
        mark: usize,
        idx: usize,
    ) -> Option<usize> {
        each!(self, r => r.possible_rewrite(query, mark, idx))
    }
}
