// The grounds on which a request is refused, each alone, and then several at once.
use crate::tables::{Bindings, Tables, small};
use crate::verdict::{show, show_at, show_changed};
use request::{ENodeIdx, TermIdx};
use std::alloc::AllocError;
use store::HasVar;

fn patterns(rt: &HostRuntime) -> anyhow::Result<()> {
    let empty = Tables::new(rt.alloc());
    show(rt, "a pattern in an empty store", empty.request().check())?;
    for (what, pattern) in [
        ("pattern 3", 3),
        ("a pattern that is missing", 5),
        ("a pattern that is a variable", 1),
        ("a pattern that is a constant", 0),
    ] {
        show_changed(rt, what, |t| {
            t.pattern = pattern;
            Ok(())
        })?;
    }
    show_changed(rt, "a pattern that is a quantifier", |t| {
        t.pattern = t.quant(&[2])?;
        Ok(())
    })
}

fn with_parts(
    rt: &HostRuntime,
    what: &str,
    has_var: HasVar,
    parts: &[usize],
) -> anyhow::Result<()> {
    show_changed(rt, what, |t| {
        t.app(HasVar::Unknown, &[4])?;
        t.ask(has_var, parts)
    })
}

// Term 4 is a quantifier, and 5 an application to it.
fn parts(rt: &HostRuntime) -> anyhow::Result<()> {
    with_parts(rt, "a part that is a variable", HasVar::Yes, &[1])?;
    with_parts(rt, "a part that is closed", HasVar::No, &[0])?;
    with_parts(rt, "one part twice", HasVar::Yes, &[2, 2])?;
    with_parts(rt, "part 0 a quantifier", HasVar::Unknown, &[4])?;
    with_parts(rt, "part 1 over a quantifier", HasVar::Unknown, &[2, 5])?;
    with_parts(rt, "parts 1 and 2 bad", HasVar::Unknown, &[0, 5, 4])
}

fn shared(rt: &HostRuntime) -> anyhow::Result<()> {
    show_at(
        rt,
        "part 1 a variable doubled so often:",
        &[5, 6, 60],
        |t, times| {
            let part = t.nested::<2>(HasVar::Yes, 1, times)?;
            t.ask(HasVar::Yes, &[2, part])
        },
    )?;
    show_at(
        rt,
        "part 1 a constant doubled so often:",
        &[60],
        |t, times| {
            let part = t.nested::<2>(HasVar::No, 0, times)?;
            t.ask(HasVar::Yes, &[2, part])
        },
    )
}

// The variable bound to each of these alone.
fn bound_to<F: Fn(usize) -> Result<Bindings, AllocError> + Drop>(
    rt: &HostRuntime,
    what: &str,
    targets: &[(usize, &str)],
    bind: F,
) -> anyhow::Result<()>
    requires { F.IsAlwaysCallable bind }
{
    for &(number, kind) in targets {
        let mut t = small(rt.alloc())?;
        t.bound = bind(number)?;
        let what = format_args!("bound to {what} {number}, {kind}");
        show(rt, what, t.request().check())?;
    }
    Ok(())
}

fn bindings(rt: &HostRuntime) -> anyhow::Result<()> {
    let heap = rt.alloc();
    let terms = [
        (0, "closed"),
        (1, "a variable"),
        (2, "with a variable"),
        (4, "a quantifier"),
        (5, "missing"),
    ];
    bound_to(rt, "term", &terms, |term| {
        Ok(Bindings::ToTerms(vec![in heap; TermIdx(term)]?))
    })?;
    let nodes = [
        (0, "of closed term 0"),
        (1, "of closed term 0"),
        (2, "of a variable"),
        (3, "of a quantifier"),
        (4, "missing"),
    ];
    bound_to(rt, "node", &nodes, |node| {
        Ok(Bindings::ToNodes(vec![in heap; ENodeIdx(node)]?))
    })
}

fn unbound(rt: &HostRuntime) -> anyhow::Result<()> {
    let heap = rt.alloc();
    let mut t = small(heap)?;
    t.bound = Bindings::ToTerms(Vec::new(heap));
    show(rt, "no bindings", t.request().check())?;
    t.ask(HasVar::No, &[0])?;
    show(rt, "no bindings and a closed part", t.request().check())?;
    t.bound = Bindings::ToTerms(vec![in heap; TermIdx(99)]?);
    show(
        rt,
        "a missing term bound, and no variable",
        t.request().check(),
    )
}

// Variable 31 is the last that 32 bindings reach.
fn last_variable(rt: &HostRuntime) -> anyhow::Result<()> {
    let heap = rt.alloc();
    show_at(rt, "32 bindings and variable", &[31, 32], |t, number| {
        t.bound = Bindings::ToTerms(vec![in heap; TermIdx(0); 32]?);
        let variable = t.var(number)?;
        t.ask(HasVar::Yes, &[2, variable])
    })
}

fn counts(rt: &HostRuntime) -> anyhow::Result<()> {
    let mut t = small(rt.alloc())?;
    t.ask(HasVar::Yes, &[2, 0])?;
    show(rt, "2 entries for 2 parts", t.request().check())?;
    let _ = t.entries.pop();
    show(rt, "1 entry for 2 parts", t.request().check())
}

pub fn run(rt: &HostRuntime) -> anyhow::Result<()> {
    patterns(rt)?;
    parts(rt)?;
    shared(rt)?;
    bindings(rt)?;
    unbound(rt)?;
    last_variable(rt)?;
    counts(rt)
}
