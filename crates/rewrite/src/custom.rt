// CustomEq: over any rewriter, what the host knows to be the same.
ghost use Rattle.std.specs.Prelude.{◌≡◌};
ghost use Rattle.rewrite.specs.Keeping.{custom_rules};
ghost use Rattle.rewrite.specs.Kinds.{custom};
ghost use Rattle.rewrite.specs.Meaning.{RewriterMeaning, Steady, Over};

use crate::coupling::Coupling;
use crate::offered::Offered;
use crate::query::Query;
use crate::rewriter::EqRewriter;
use host::Host;
use store::Store;

#[derive(Drop)]
pub struct CustomEq<R: EqRewriter> {
    inner: R,
}

impl<R: EqRewriter> CustomEq<R> {
    pub fn new(inner: R) -> Self
        ensures inner { result.inner ≡ inner }
        ensures steady { (ρ : RewriterMeaning) → Steady ρ → Steady (custom ρ) }
        ensures over { (ρ : RewriterMeaning) → Over ρ (custom ρ) }
    {
        CustomEq { inner }
    }
}

impl<R: EqRewriter> EqRewriter for CustomEq<R> {
    ghost rewriter = { λ x S. custom (R.EqRewriter.rewriter x.inner S) };

    ghost state = { λ x. R.EqRewriter.state x.inner };

    ghost rules = { λ x S. custom_rules S (R.EqRewriter.rewriter x.inner S) (R.EqRewriter.rules x.inner S) };

    fn coupling(&self) -> Coupling {
        Coupling::MissingEqs
    }

    fn forbid_dups(&self) -> bool {
        false
    }

    fn reset(&mut self) {
        self.inner.reset();
    }

    fn mark(&self) -> usize {
        self.inner.mark()
    }

    fn back(&mut self, mark: usize) {
        self.inner.back(mark);
    }

    fn finished(&self, store: Store) -> bool {
        self.inner.finished(store)
    }

    fn possible_rewrite_count<H: Host>(&mut self, query: &Query<'_, H>) -> Option<Offered> {
        match query.same_ends() {
            Some(ends) => Some(Offered {
                from: ends.from,
                count: 1,
            }),
            None => self.inner.possible_rewrite_count(query),
        }
    }

    fn possible_rewrite<H: Host>(
        &self,
        query: &Query<'_, H>,
        mark: usize,
        idx: usize,
    ) -> Option<usize> {
        match query.same_ends() {
            Some(ends) => (idx == 0).then_some(ends.to),
            None => self.inner.possible_rewrite(query, mark, idx),
        }
    }
}
