// Both sides of each limit.
use crate::tables::{Bindings, Tables, span};
use crate::verdict::show_at;
use request::{ENodeIdx, LogEntry, Pair, TermIdx};
use std::alloc::{AllocError, Global};
use store::{ENode, HasVar, Term, TermKind};

fn add_constants(t: &mut Tables, n: usize) -> Result<(), AllocError> {
    let constant = Term {
        kind: TermKind::App(0),
        has_var: HasVar::No,
        child_ids: span(t.cells.len(), 0),
    };
    t.terms.resize(n, constant)
}

fn add_symbols(t: &mut Tables, n: usize) -> Result<(), AllocError> {
    for i in t.symbols.len()..n {
        t.symbol(&i.to_be_bytes())?;
    }
    Ok(())
}

fn store_sizes(rt: &HostRuntime) -> anyhow::Result<()> {
    show_at(rt, "terms", &[4096, 4097], add_constants)?;
    show_at(rt, "nodes", &[4096, 4097], |t, n| {
        t.nodes.resize(n, ENode { owner: 0 })
    })?;
    show_at(rt, "cells", &[16384, 16385], |t, n| t.cells.resize(n, 0))?;
    show_at(rt, "symbols", &[4096, 4097], add_symbols)?;
    show_at(rt, "name bytes", &[65536, 65537], |t, n| {
        t.names.resize(n, b'a')
    })
}

// Variable 0 under applications to one child each, n places in all.
fn ask_chain(t: &mut Tables, n: usize) -> Result<(), AllocError> {
    let variable = t.var(0)?;
    let top = t.nested::<1>(HasVar::Yes, variable, n.saturating_sub(1))?;
    t.ask(HasVar::Yes, &[top])
}

// An application to variable 0 so many times.
fn ask_wide(heap: Global, t: &mut Tables, n: usize) -> Result<(), AllocError> {
    let variables = vec![in heap; 1; n]?;
    let part = t.app(HasVar::Yes, variables.as_slice())?;
    t.ask(HasVar::Yes, &[part])
}

fn part_sizes(rt: &HostRuntime) -> anyhow::Result<()> {
    let heap = rt.alloc();
    show_at(rt, "parts", &[0, 1, 16, 17], |t, n| {
        let constants = vec![in heap; 0; n]?;
        t.ask(HasVar::No, constants.as_slice())
    })?;
    show_at(rt, "a part so deep:", &[1, 64, 65], ask_chain)?;
    show_at(
        rt,
        "a part so wide:",
        &[63, 64],
        |t, n| ask_wide(heap, t, n),
    )
}

fn binding_counts(rt: &HostRuntime) -> anyhow::Result<()> {
    let heap = rt.alloc();
    show_at(rt, "bindings to terms", &[32, 33], |t, n| {
        t.bound = Bindings::ToTerms(vec![in heap; TermIdx(0); n]?);
        Ok(())
    })?;
    show_at(rt, "bindings to nodes", &[32, 33], |t, n| {
        t.bound = Bindings::ToNodes(vec![in heap; ENodeIdx(0); n]?);
        Ok(())
    })
}

fn log_sizes(rt: &HostRuntime) -> anyhow::Result<()> {
    show_at(rt, "entries", &[0, 1, 64, 65], |t, n| {
        let without_pairs = LogEntry {
            node: 0,
            pairs: span(0, 0),
        };
        t.entries.resize(n, without_pairs)
    })?;
    show_at(rt, "pairs of entry 1:", &[64, 65], |t, n| {
        t.pairs.resize(100, Pair { from: 0, to: 1 })?;
        t.entry(0, span(10, n))
    })?;
    show_at(rt, "pairs of the table:", &[4096, 4097], |t, n| {
        t.pairs.resize(n, Pair { from: 0, to: 1 })
    })
}

pub fn run(rt: &HostRuntime) -> anyhow::Result<()> {
    store_sizes(rt)?;
    part_sizes(rt)?;
    binding_counts(rt)?;
    log_sizes(rt)
}
