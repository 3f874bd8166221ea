// Entries and pairs that are refused, which of them is named, and which ground counts.
use crate::tables::{Bindings, Tables, small, span};
use crate::verdict::{show, show_at, show_changed};
use request::{Pair, TermIdx};
use std::alloc::{AllocError, Global};
use store::{HasVar, Span};

// The request has two good pairs, and behind its good entry 0 the entry 1.
fn with_entry(rt: &HostRuntime, what: &str, node: usize, pairs: Span) -> anyhow::Result<()> {
    show_changed(rt, what, |t| {
        t.pair(0, 1)?;
        t.pair(1, 0)?;
        t.entry(node, pairs)
    })
}

fn entries(rt: &HostRuntime) -> anyhow::Result<()> {
    with_entry(rt, "entry 1 of node 1", 1, span(0, 2))?;
    with_entry(rt, "entry 1 of node 2, of a variable", 2, span(0, 2))?;
    with_entry(rt, "entry 1 of node 3, of a quantifier", 3, span(0, 2))?;
    with_entry(rt, "entry 1 of node 4, missing", 4, span(0, 2))?;
    with_entry(rt, "pairs 1+1 of 2", 0, span(1, 1))?;
    with_entry(rt, "pairs 1+2 of 2", 0, span(1, 2))?;
    with_entry(rt, "pairs 2+0 of 2", 0, span(2, 0))?;
    with_entry(rt, "pairs 3+0 of 2", 0, span(3, 0))?;
    with_entry(rt, "pairs from the highest number", 0, span(usize::MAX, 1))
}

fn first_entry(rt: &HostRuntime) -> anyhow::Result<()> {
    let mut t = small(rt.alloc())?;
    t.pair(0, 1)?;
    t.entry(0, span(0, 1))?;
    t.entry(0, span(0, 1))?;
    show(rt, "two entries with one pair", t.request().check())?;
    t.entry(9, span(0, 0))?;
    t.entry(2, span(0, 0))?;
    show(rt, "entries 3 and 4 bad", t.request().check())?;
    t.pair(9, 9)?;
    show(rt, "entries 3 and 4 and pair 1 bad", t.request().check())
}

fn pairs(rt: &HostRuntime) -> anyhow::Result<()> {
    let mut t = small(rt.alloc())?;
    t.pair(3, 3)?;
    show(rt, "a pair of one node, of no entry", t.request().check())?;
    t.pair(0, 4)?;
    show(rt, "pair 1 to a missing node", t.request().check())?;
    t.pair(4, 0)?;
    show(rt, "pairs 1 and 2 bad", t.request().check())?;
    show_changed(rt, "pair 0 from a missing node", |t| t.pair(4, 0))
}

// 4,097 pairs, and one with a missing node among them or behind them.
fn pair_past_the_limit(rt: &HostRuntime) -> anyhow::Result<()> {
    show_at(
        rt,
        "4098 pairs, and bad the one numbered",
        &[7, 4095, 4097],
        |t, bad| {
            t.pairs.resize(bad, Pair { from: 0, to: 1 })?;
            t.pair(0, 9)?;
            t.pairs.resize(4098, Pair { from: 0, to: 1 })
        },
    )
}

// Makes the small request one at which the grounds from this one to the sixth hold.
// The ground is a number and no refusal, since it is printed, and 7 is none.
fn spoil(heap: Global, t: &mut Tables, first: usize) -> Result<(), AllocError> {
    t.entries.clear();
    t.entry(if first <= 6 { 9 } else { 0 }, span(0, 0))?;
    let count = if first <= 2 { 17 } else { 2 };
    let (part, has_var) = if first <= 3 {
        (4, HasVar::Unknown)
    } else {
        (2, HasVar::Yes)
    };
    let parts = vec![in heap; part; count]?;
    t.ask(has_var, parts.as_slice())?;
    if first <= 5 {
        t.entries.truncate(1);
    }
    if first <= 4 {
        t.bound = Bindings::ToTerms(vec![in heap; TermIdx(0); 33]?);
    }
    if first <= 1 {
        t.node(99)?;
    }
    Ok(())
}

fn several(rt: &HostRuntime) -> anyhow::Result<()> {
    let heap = rt.alloc();
    show_at(
        rt,
        "the grounds up to 6, from",
        &[1, 2, 3, 4, 5, 6, 7],
        |t, first| spoil(heap, t, first),
    )
}

pub fn run(rt: &HostRuntime) -> anyhow::Result<()> {
    entries(rt)?;
    first_entry(rt)?;
    pairs(rt)?;
    pair_past_the_limit(rt)?;
    several(rt)
}
