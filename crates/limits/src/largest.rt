// The largest request that is admitted, and how long its check takes.
use crate::tables::{Bindings, Tables, span};
use crate::verdict::show;
use request::{Pair, TermIdx};
use std::alloc::{AllocError, Global};
use std::array;
use std::time::Instant;
use store::{ENode, HasVar, TermKind};

// 4,096 names of 16 bytes, the same in all but the last two.
fn add_symbols(t: &mut Tables) -> Result<(), AllocError> {
    for i in 0..4096u64 {
        t.symbol(&u128::from(i).to_be_bytes())?;
    }
    Ok(())
}

// Variables 0 to 31 are terms 1 to 32.
fn add_variables(t: &mut Tables) -> Result<(), AllocError> {
    for number in 0..32 {
        t.var(number)?;
    }
    Ok(())
}

// 16 parts of 64 places each: eight are 64 deep, eight have 63 children.
fn add_parts(t: &mut Tables) -> Result<[usize; 16], AllocError> {
    array::try_from_fn(|i| {
        if i < 8 {
            t.nested::<1>(HasVar::Yes, 32, 63)
        } else {
            t.app(HasVar::Yes, &[32; 63])
        }
    })
}

// Closed applications until there are 4,096 terms, with all the cells that are left.
fn add_closed(t: &mut Tables) -> Result<(), AllocError> {
    let closed = [0; 5];
    for _ in t.terms.len()..4096 {
        let count = 16384usize.saturating_sub(t.cells.len()).min(5);
        t.app(HasVar::No, &closed[..count])?;
    }
    Ok(())
}

// 64 entries with 64 pairs each.
fn add_log(t: &mut Tables) -> Result<(), AllocError> {
    for j in 0..64 {
        t.entry(4095, span(j * 64, 64))?;
    }
    t.pairs.resize(
        4096,
        Pair {
            from: 4094,
            to: 4095,
        },
    )
}

fn largest(heap: Global) -> Result<Tables, AllocError> {
    let mut t = Tables::new(heap);
    add_symbols(&mut t)?;
    t.term(TermKind::App(4095), HasVar::No, &[])?;
    add_variables(&mut t)?;
    t.bound = Bindings::ToTerms(vec![in heap; TermIdx(0); 32]?);
    add_log(&mut t)?;
    let parts = add_parts(&mut t)?;
    t.ask(HasVar::Yes, &parts)?;
    add_closed(&mut t)?;
    t.nodes.resize(4096, ENode { owner: 0 })?;
    Ok(t)
}

fn sizes(rt: &HostRuntime, t: &Tables) -> anyhow::Result<()> {
    let terms = t.terms.len();
    let nodes = t.nodes.len();
    let cells = t.cells.len();
    let symbols = t.symbols.len();
    let bytes = t.names.len();
    println!(rt;
        "the largest store: {terms} terms, {nodes} nodes, {cells} cells, {symbols} symbols, {bytes} bytes"
    )?;
    let parts = t.request().parts().len();
    let bindings = match &t.bound {
        Bindings::ToTerms(items) => items.len(),
        Bindings::ToNodes(items) => items.len(),
    };
    let entries = t.entries.len();
    let pairs = t.pairs.len();
    println!(rt;
        "the largest request: {parts} parts, {bindings} bindings, {entries} entries, {pairs} pairs"
    )?;
    Ok(())
}

// The time goes to standard error, since it differs from run to run.
pub fn run(rt: &HostRuntime) -> anyhow::Result<()> {
    let t = largest(rt.alloc())?;
    sizes(rt, &t)?;
    let start = Instant::now(rt)?;
    show(rt, "the largest request", t.request().check())?;
    let millis = start.elapsed(rt)?.as_millis();
    eprintln!(rt; "the largest request was checked in {millis} ms")?;
    Ok(())
}
