// A term that is matched whole, by one offer that it owns.
ghost use Rattle.std.specs.Prelude.{◌≡◌};
ghost use Rattle.matcher.specs.Machine.{pair_hit, IsFirstOf};
ghost use Rattle.matcher.specs.Settings.{owned_at, found_owned};
ghost use Rattle.rewrite.specs.Meaning.{meant};
ghost use Rattle.store.specs.Tables.{tables};

use host::Host;
use request::Pair;
use rewrite::{EqRewriter, Offered, Query};

// The node of an offer, of the query in the marked state, if the pattern term owns it.
fn owned_offer<H: Host, R: EqRewriter>(
    query: &Query<'_, H>,
    rewriter: &R,
    mark: usize,
    idx: usize,
) -> Option<usize>
    ensures { result ≡ owned_at H.Host.meaning (R.EqRewriter.rewriter rewriter.now) query.now mark idx }
{
    let to = rewriter.possible_rewrite(query, mark, idx)?;
    query.store.is_owned(to, query.subpat).then_some(to)
}

// The first such node.
fn first_owned<H: Host, R: EqRewriter>(
    query: &Query<'_, H>,
    rewriter: &R,
    mark: usize,
    count: usize,
) -> Option<usize>
    ensures { IsFirstOf (owned_at H.Host.meaning (R.EqRewriter.rewriter rewriter.now) query.now mark) count result }
{
    (0..count).find_map(|i| owned_offer(query, rewriter, mark, i))
}

// A pair that leads from the term to the pattern term, by the first offer that does.
pub(crate) fn owned_pair<H: Host, R: EqRewriter>(
    query: &Query<'_, H>,
    rewriter: &mut R,
) -> Option<Pair>
    ensures found { pair_hit result (R.EqRewriter.state rewriter.new) ≡ found_owned H.Host.meaning (R.EqRewriter.rewriter rewriter.old) query.now (R.EqRewriter.state rewriter.old) (R.EqRewriter.state rewriter.new) }
    ensures moves { R.EqRewriter.state rewriter.new ≡ (R.EqRewriter.rewriter rewriter.old (tables query.now.store)).next (R.EqRewriter.state rewriter.old) (meant H.Host.meaning query.now) }
    ensures same { R.EqRewriter.rewriter rewriter.new ≡ R.EqRewriter.rewriter rewriter.old }
{
    let mark = rewriter.mark();
    let offered = rewriter.possible_rewrite_count(query)?;
    first_owned(query, rewriter, mark, offered.count).map(|to| Pair {
        from: offered.from,
        to,
    })
}
