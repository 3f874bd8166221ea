// What the rewriters offer at a query, and what is printed of it.
ghost use Rattle.std.specs.Prelude.{◌≡◌, [], IfOk};
ghost use Rattle.explain.specs.Offering.{listed, asked, first_of, first_offers};
ghost use Rattle.kind.specs.Kinds.{of_kind};
ghost use Rattle.rewrite.specs.Meaning.{meant};
ghost use Rattle.std.specs.Option.{option_map};
ghost use Rattle.store.specs.Tables.{tables};

use crate::show_host::Numbers;
use crate::text::Query;
use host::Host;
use kind::AnyEq;
use request::{Pair, Request};
use rewrite::EqRewriter;
use std::alloc::{AllocError, Global};
use std::fmt;
use store::{Culprit, Fault, Refusal, Store};

// The node to rewrite from, and those that are offered to rewrite to.
#[derive(Drop)]
struct Offers {
    from: usize,
    tos: Vec<usize>,
}

impl fmt::Display for Offers {
    fn fmt<W: fmt::Write>(&self, f: &mut fmt::Formatter<W>) -> fmt::Result {
        write!(f, "from {} to{}", self.from, Numbers(self.tos.as_slice()))
    }
}

pub fn show_offers<H: Host>(
    rt: &HostRuntime,
    request: Request,
    host: &H,
    query: Query,
) -> anyhow::Result<()> {
    let Some(pairs) = request.entry_pairs(query.entry) else {
        let culprit = Culprit::Entry(query.entry);
        let fault = Fault::finder(Refusal::EntryNotWaiting, culprit);
        println!(rt; "{query}: {fault}")?;
        return Ok(());
    };
    match offers_of(rt.alloc(), request.store, host, pairs, query)? {
        Some(offers) => println!(rt; "{query}: {offers}")?,
        None => println!(rt; "{query}: nothing")?,
    }
    Ok(())
}

// What the rewriter of the query's kind over these pairs offers, with no node set aside.
fn offers_of<H: Host>(
    heap: Global,
    store: Store,
    host: &H,
    pairs: &[Pair],
    query: Query,
) -> Result<Option<Offers>, AllocError>
    ensures { IfOk result (λ o. option_map listed o ≡ first_offers (of_kind query.kind pairs.now [] (tables store.entry)) (asked (H.Host.meaning host.now (tables store.entry)) query)) }
{
    let asked = rewrite::Query {
        store,
        host,
        aside: &[],
        blame: query.term,
        subpat: query.pattern_term,
    };
    let mut rewriter = AnyEq::new(query.kind, pairs, &[]);
    let mark = rewriter.mark();
    let Some(offered) = rewriter.possible_rewrite_count(&asked) else {
        return Ok(None);
    };
    let tos = first_of(heap, &rewriter, &asked, mark, offered.count)?;
    Ok(Some(Offers {
        from: offered.from,
        tos,
    }))
}

// The first offers of the query in the marked state, so many.
fn first_of<H: Host, R: EqRewriter>(
    heap: Global,
    rewriter: &R,
    query: &rewrite::Query<'_, H>,
    mark: usize,
    count: usize,
) -> Result<Vec<usize>, AllocError>
    ensures { IfOk result (λ v. v.items ≡ first_of ((R.EqRewriter.rewriter rewriter.now (tables query.now.store)).ask mark (meant H.Host.meaning query.now)) count) }
{
    (0..count)
        .filter_map(|idx| rewriter.possible_rewrite(query, mark, idx))
        .collect(heap)
}
