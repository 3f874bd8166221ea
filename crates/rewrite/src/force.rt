// ForceEq: over any rewriter, any two live nodes, and at last the nodes set aside.
ghost use Rattle.std.specs.Prelude.{◌≡◌};
ghost use Rattle.rewrite.specs.Keeping.{force_rules};
ghost use Rattle.rewrite.specs.Kinds.{force};
ghost use Rattle.rewrite.specs.Meaning.{RewriterMeaning, Steady, Over};

use crate::coupling::Coupling;
use crate::offered::Offered;
use crate::query::Query;
use crate::rewriter::EqRewriter;
use host::Host;
use store::{Store, lookup};

// Four methods hand on to what is below, here and in CustomEq: one struct for both would need a trait for the four that differ.
#[derive(Drop)]
pub struct ForceEq<R: EqRewriter> {
    inner: R,
}

impl<R: EqRewriter> ForceEq<R> {
    pub fn new(inner: R) -> Self
        ensures inner { result.inner ≡ inner }
        ensures steady { (ρ : RewriterMeaning) → Steady ρ → Steady (force ρ) }
        ensures over { (ρ : RewriterMeaning) → Over ρ (force ρ) }
    {
        ForceEq { inner }
    }
}

impl<R: EqRewriter> EqRewriter for ForceEq<R> {
    ghost rewriter = { λ x S. force (R.EqRewriter.rewriter x.inner S) };

    ghost state = { λ x. R.EqRewriter.state x.inner };

    ghost rules = { λ x S. force_rules S (R.EqRewriter.rewriter x.inner S) (R.EqRewriter.rules x.inner S) };

    fn coupling(&self) -> Coupling {
        Coupling::AddedEqs
    }

    fn forbid_dups(&self) -> bool {
        true
    }

    fn reset(&mut self) {
        self.inner.reset();
    }

    fn mark(&self) -> usize {
        self.inner.mark()
    }

    fn back(&mut self, mark: usize) {
        self.inner.back(mark);
    }

    fn finished(&self, store: Store) -> bool {
        self.inner.finished(store)
    }

    fn possible_rewrite_count<H: Host>(&mut self, query: &Query<'_, H>) -> Option<Offered> {
        if let Some(ends) = query.live_ends() {
            return Some(Offered {
                from: ends.from,
                count: 1,
            });
        }
        if let Some(offered) = self.inner.possible_rewrite_count(query) {
            return Some(offered);
        }
        let from = query.aside_from()?;
        Some(Offered {
            from,
            count: query.aside.len(),
        })
    }

    fn possible_rewrite<H: Host>(
        &self,
        query: &Query<'_, H>,
        mark: usize,
        idx: usize,
    ) -> Option<usize> {
        if let Some(ends) = query.live_ends() {
            return (idx == 0).then_some(ends.to);
        }
        // What offers at all has a first offer.
        if self.inner.possible_rewrite(query, mark, 0).is_some() {
            return self.inner.possible_rewrite(query, mark, idx);
        }
        query.aside_from()?;
        lookup(query.aside, idx)
    }
}
