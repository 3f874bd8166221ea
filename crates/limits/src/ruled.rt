// The rules of a store for each term and node.
use crate::tables::{Tables, small};
use crate::verdict::show;
use std::fmt;
use store::{HasVar, TermKind};

// The small store has terms 0 to 4, so the new term is number 5.
fn with_term(
    rt: &HostRuntime,
    what: impl fmt::Display + Drop,
    kind: TermKind,
    has_var: HasVar,
    children: &[usize],
) -> anyhow::Result<()> {
    let mut t = small(rt.alloc())?;
    t.term(kind, has_var, children)?;
    show(rt, what, t.store().check())
}

fn children_below(rt: &HostRuntime) -> anyhow::Result<()> {
    let app = TermKind::App(0);
    let quant = TermKind::Quant(9);
    let unknown = HasVar::Unknown;
    with_term(rt, "term 5 with child 4", app, unknown, &[4])?;
    with_term(rt, "term 5 with child 5", app, HasVar::No, &[5])?;
    with_term(rt, "term 5 with child 6", app, unknown, &[6])?;
    with_term(rt, "a quantifier with child 5", quant, unknown, &[5])?;
    with_term(rt, "a quantifier with children", quant, unknown, &[0, 1])
}

fn kinds(rt: &HostRuntime) -> anyhow::Result<()> {
    let var = TermKind::Var(9);
    with_term(rt, "a variable without child", var, HasVar::Yes, &[])?;
    with_term(rt, "a variable with a child", var, HasVar::Yes, &[1])?;
    with_term(rt, "symbol 0 of 1", TermKind::App(0), HasVar::No, &[])?;
    with_term(rt, "symbol 1 of 1", TermKind::App(1), HasVar::No, &[])
}

// The same term with each of the three records.
fn records_of(
    rt: &HostRuntime,
    what: &str,
    kind: TermKind,
    children: &[usize],
) -> anyhow::Result<()> {
    for (record, has_var) in [
        ("no", HasVar::No),
        ("yes", HasVar::Yes),
        ("unknown", HasVar::Unknown),
    ] {
        let what = format_args!("{what}, recorded {record}");
        with_term(rt, what, kind, has_var, children)?;
    }
    Ok(())
}

fn records(rt: &HostRuntime) -> anyhow::Result<()> {
    records_of(rt, "a variable", TermKind::Var(0), &[])?;
    records_of(rt, "a quantifier over closed", TermKind::Quant(0), &[0])?;
    records_of(rt, "a constant", TermKind::App(0), &[])?;
    records_of(rt, "closed closed", TermKind::App(0), &[0, 0])?;
    records_of(rt, "closed variable", TermKind::App(0), &[0, 1])?;
    records_of(rt, "variable closed", TermKind::App(0), &[1, 0])?;
    records_of(rt, "closed quantifier", TermKind::App(0), &[0, 4])?;
    records_of(rt, "variable quantifier", TermKind::App(0), &[1, 4])?;
    records_of(rt, "quantifier variable", TermKind::App(0), &[4, 1])
}

fn owners(rt: &HostRuntime) -> anyhow::Result<()> {
    let mut t = small(rt.alloc())?;
    t.node(4)?;
    show(rt, "owner 4 of terms 0 to 4", t.store().check())?;
    t.node(5)?;
    show(rt, "owner 5 of terms 0 to 4", t.store().check())
}

pub fn run(rt: &HostRuntime) -> anyhow::Result<()> {
    let empty = Tables::new(rt.alloc());
    show(rt, "an empty store", empty.store().check())?;
    children_below(rt)?;
    kinds(rt)?;
    records(rt)?;
    owners(rt)
}
