// What is read off a request and a store.
use crate::tables::{Bindings, Tables, small, span};
use request::ENodeIdx;
use store::{HasVar, Span, Term, TermKind};

fn print_places(rt: &HostRuntime, what: &str, t: &Tables, term: usize) -> anyhow::Result<()> {
    match t.request().places(term) {
        Some(places) => {
            let count = places.count();
            let listed = places.as_slice();
            println!(rt; "{what}: {count} places {listed:?}")?;
        }
        None => println!(rt; "{what}: too many places")?,
    }
    Ok(())
}

// Terms 5 to 8: a closed application, two with variables, and one with all of them.
fn places(rt: &HostRuntime) -> anyhow::Result<()> {
    let mut t = small(rt.alloc())?;
    let closed = t.app(HasVar::No, &[0, 0])?;
    let pair = t.app(HasVar::Yes, &[1, 0])?;
    let nested = t.app(HasVar::Yes, &[closed, pair, 2])?;
    print_places(rt, "places of a variable", &t, 1)?;
    print_places(rt, "places of a closed application", &t, closed)?;
    print_places(rt, "places of 7", &t, nested)?;
    let all = t.app(HasVar::Yes, &[nested; 11])?;
    print_places(rt, "places of 8", &t, all)
}

fn bound(rt: &HostRuntime) -> anyhow::Result<()> {
    let heap = rt.alloc();
    let mut t = small(heap)?;
    t.bound = Bindings::ToNodes(vec![in heap; ENodeIdx(2), ENodeIdx(3), ENodeIdx(9)]?);
    for variable in 0..4 {
        let term = t.request().bound.bound_term(t.store(), variable);
        println!(rt; "variable {variable} by nodes 2 3 9: {term:?}")?;
    }
    Ok(())
}

fn logged(rt: &HostRuntime) -> anyhow::Result<()> {
    let mut t = small(rt.alloc())?;
    t.pair(0, 1)?;
    t.pair(1, 2)?;
    t.pair(2, 3)?;
    t.entry(2, span(1, 2))?;
    t.entry(9, span(2, 2))?;
    for entry in 0..4 {
        let term = t.request().entry_term(entry);
        let count = t.request().entry_pairs(entry).map(|pairs| pairs.len());
        println!(rt; "entry {entry}: term {term:?}, pairs {count:?}")?;
    }
    Ok(())
}

fn named(rt: &HostRuntime) -> anyhow::Result<()> {
    let mut t = Tables::new(rt.alloc());
    t.symbol(b"if")?;
    t.symbol(b"i")?;
    t.symbol(b"iff")?;
    t.symbol(b"If")?;
    for symbol in 0..5 {
        let is_if = t.store().is_if(symbol);
        println!(rt; "symbol {symbol} of if i iff If: {is_if}")?;
    }
    Ok(())
}

const fn closed(kind: TermKind, child_ids: Span) -> Term {
    Term {
        kind,
        has_var: HasVar::No,
        child_ids,
    }
}

fn matches(rt: &HostRuntime) -> anyhow::Result<()> {
    let h = closed(TermKind::App(1), span(0, 2));
    for (what, other) in [
        ("h(1, 1)", closed(TermKind::App(1), span(2, 2))),
        ("h(0)", closed(TermKind::App(1), span(0, 1))),
        ("g(0, 0)", closed(TermKind::App(2), span(0, 2))),
        (
            "quantifier 1 over 0, 0",
            closed(TermKind::Quant(1), span(0, 2)),
        ),
    ] {
        let answer = h.can_match(other);
        println!(rt; "h(0, 0) and {what}: {answer}")?;
    }
    Ok(())
}

fn variables_match(rt: &HostRuntime) -> anyhow::Result<()> {
    let variable = closed(TermKind::Var(1), span(0, 0));
    for number in [1, 2] {
        let answer = variable.can_match(closed(TermKind::Var(number), span(0, 0)));
        println!(rt; "variables 1 and {number}: {answer}")?;
    }
    Ok(())
}

pub fn run(rt: &HostRuntime) -> anyhow::Result<()> {
    places(rt)?;
    bound(rt)?;
    logged(rt)?;
    named(rt)?;
    matches(rt)?;
    variables_match(rt)
}
