// A rewriter, by what it means over a store.
ghost use Rattle.std.specs.Prelude.{◌≡◌, ℕ};
ghost use Rattle.rewrite.specs.Meaning.{RewriterMeaning, OfferRules, meant, returned, counted, offer_at};
ghost use Rattle.store.specs.Tables.{Tables, tables};

use crate::coupling::Coupling;
use crate::offered::Offered;
use crate::query::Query;
use host::Host;
use store::Store;

pub trait EqRewriter {
    ghost rewriter: { Self → Tables → RewriterMeaning };

    // The state that it is in, by its mark.
    ghost state: { Self → ℕ };

    fn coupling(&self) -> Coupling
        ensures { (S : Tables) → result ≡ (rewriter self.now S).coupling };

    // Whether one entry may not explain two parts.
    fn forbid_dups(&self) -> bool
        ensures { (S : Tables) → result ≡ (rewriter self.now S).forbids };

    // What moves it says for itself that it means the same as before.
    fn reset(&mut self)
        ensures first { (S : Tables) → state self.new ≡ (rewriter self.old S).first }
        ensures same { rewriter self.new ≡ rewriter self.old };

    fn mark(&self) -> usize
        ensures { result ≡ state self.now };

    // To the state that is marked so, else to the first.
    fn back(&mut self, mark: usize)
        ensures goes { (S : Tables) → state self.new ≡ returned (rewriter self.old S) mark }
        ensures same { rewriter self.new ≡ rewriter self.old };

    fn finished(&self, store: Store) -> bool
        ensures { result ≡ (rewriter self.now (tables store.entry)).finished (state self.now) };

    // What it answers to the query.
    fn possible_rewrite_count<H: Host>(&mut self, query: &Query<'_, H>) -> Option<Offered>
        ensures answer { result ≡ counted ((rewriter self.old (tables query.now.store)).ask (state self.old) (meant H.Host.meaning query.now)) }
        ensures moves { state self.new ≡ (rewriter self.old (tables query.now.store)).next (state self.old) (meant H.Host.meaning query.now) }
        ensures same { rewriter self.new ≡ rewriter self.old };

    // The offer with this number of the query that was made in the marked state; none past the last.
    fn possible_rewrite<H: Host>(
        &self,
        query: &Query<'_, H>,
        mark: usize,
        idx: usize,
    ) -> Option<usize>
        ensures { result ≡ offer_at ((rewriter self.now (tables query.now.store)).ask mark (meant H.Host.meaning query.now)) idx };

    // The law that each impl proves.
    ghost rules: { (x : Self) (S : Tables) → OfferRules S (rewriter x S) };
}
