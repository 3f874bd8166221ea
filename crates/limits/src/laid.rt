// The rules of a store for spans and names.
use crate::tables::{Tables, span};
use crate::verdict::show;
use store::{HasVar, Span, Term, TermKind};

// A constant, and an application for each span, over four cells that hold the constant.
fn children(rt: &HostRuntime, what: &str, spans: &[Span]) -> anyhow::Result<()> {
    let mut t = Tables::new(rt.alloc());
    t.symbol(b"a")?;
    t.app(HasVar::No, &[])?;
    t.cells.resize(4, 0)?;
    for &child_ids in spans {
        t.terms.push(Term {
            kind: TermKind::App(0),
            has_var: HasVar::No,
            child_ids,
        })?;
    }
    show(rt, what, t.store().check())
}

// A symbol for each span of the text.
fn names(rt: &HostRuntime, what: &str, text: &[u8], spans: &[Span]) -> anyhow::Result<()> {
    let mut t = Tables::new(rt.alloc());
    t.names.extend_from_slice(text)?;
    t.symbols.extend_from_slice(spans)?;
    show(rt, what, t.store().check())
}

fn children_inside(rt: &HostRuntime) -> anyhow::Result<()> {
    children(rt, "children 0+2 2+2 of 4", &[span(0, 2), span(2, 2)])?;
    children(rt, "children 2+3 of 4", &[span(2, 3)])?;
    children(rt, "children 4+0 of 4", &[span(4, 0)])?;
    children(rt, "children 5+0 of 4", &[span(5, 0)])?;
    children(
        rt,
        "children from the highest number",
        &[span(usize::MAX, 1)],
    )?;
    children(
        rt,
        "as many children as the highest number",
        &[span(1, usize::MAX)],
    )
}

fn children_apart(rt: &HostRuntime) -> anyhow::Result<()> {
    children(rt, "children 2+2 0+2", &[span(2, 2), span(0, 2)])?;
    children(rt, "children 2+0 1+0", &[span(2, 0), span(1, 0)])?;
    children(rt, "children 0+2 1+1", &[span(0, 2), span(1, 1)])?;
    children(rt, "children 0+2 0+2", &[span(0, 2), span(0, 2)])?;
    children(rt, "children 0+0 0+2", &[span(0, 0), span(0, 2)])?;
    children(
        rt,
        "children 0+2 0+0 2+1",
        &[span(0, 2), span(0, 0), span(2, 1)],
    )?;
    children(
        rt,
        "children 0+2 1+0 2+2",
        &[span(0, 2), span(1, 0), span(2, 2)],
    )?;
    children(
        rt,
        "children 0+2 1+0 1+1",
        &[span(0, 2), span(1, 0), span(1, 1)],
    )
}

fn names_laid(rt: &HostRuntime) -> anyhow::Result<()> {
    names(
        rt,
        "names 0+2 2+2 of abcd",
        b"abcd",
        &[span(0, 2), span(2, 2)],
    )?;
    names(rt, "names 2+3 of abcd", b"abcd", &[span(2, 3)])?;
    names(
        rt,
        "names 2+2 0+2 of abcd",
        b"abcd",
        &[span(2, 2), span(0, 2)],
    )?;
    names(
        rt,
        "names 0+2 1+2 of abcd",
        b"abcd",
        &[span(0, 2), span(1, 2)],
    )?;
    names(
        rt,
        "names 0+2 1+0 2+2 of abcd",
        b"abcd",
        &[span(0, 2), span(1, 0), span(2, 2)],
    )
}

fn names_distinct(rt: &HostRuntime) -> anyhow::Result<()> {
    names(rt, "names a ab", b"aab", &[span(0, 1), span(1, 2)])?;
    names(rt, "names ab ab", b"abab", &[span(0, 2), span(2, 2)])?;
    names(
        rt,
        "names a b a",
        b"aba",
        &[span(0, 1), span(1, 1), span(2, 1)],
    )?;
    names(rt, "one empty name", b"", &[span(0, 0)])?;
    names(rt, "two empty names", b"", &[span(0, 0), span(0, 0)])
}

pub fn run(rt: &HostRuntime) -> anyhow::Result<()> {
    children_inside(rt)?;
    children_apart(rt)?;
    names_laid(rt)?;
    names_distinct(rt)
}
