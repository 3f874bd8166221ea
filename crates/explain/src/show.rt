// What is printed of a request.
use crate::host_text::ClassKind;
use crate::offers::show_offers;
use crate::show_host::show_host;
use crate::text::{Action, RequestText};
use host::{ClassLinks, ClassNumbers, Host};
use request::Request;
use std::{fmt, io};
use store::Store;

pub fn show(rt: &HostRuntime, text: &RequestText) -> anyhow::Result<()> {
    let request = text.request();
    if let Err(fault) = request.check() {
        rt.println(fault)?;
        return Ok(());
    }
    rt.println("admitted")?;
    show_parts(rt, request)?;
    show_entries(rt, request)?;
    show_hosted(rt, text)
}

// What needs the host.
fn show_hosted(rt: &HostRuntime, text: &RequestText) -> anyhow::Result<()> {
    let store = text.request().store;
    let tables = text
        .host
        .tables(store.terms.len(), store.nodes.len(), rt.alloc())?;
    match tables.class_kind {
        ClassKind::Class => show_asked(rt, text, &tables.host(ClassNumbers)),
        ClassKind::Link => show_asked(rt, text, &tables.host(ClassLinks)),
    }
}

fn show_asked<H: Host>(rt: &HostRuntime, text: &RequestText, host: &H) -> anyhow::Result<()> {
    let request = text.request();
    show_host(rt, request.store, host)?;
    for action in text.actions() {
        match *action {
            Action::Offers(query) => show_offers(rt, request, host, query)?,
            Action::Find { .. } | Action::Round { .. } => {}
        }
    }
    Ok(())
}

fn show_parts(rt: &HostRuntime, request: Request) -> io::Result<()> {
    for (i, part) in request.parts().iter().enumerate() {
        println!(rt;
            "part {i}: term {part} places {}",
            place_count(request, *part)
        )?;
    }
    Ok(())
}

// An admitted request has no part whose places cannot be listed.
fn place_count(request: Request, term: usize) -> usize {
    request.places(term).map_or(0, |places| places.count())
}

fn show_entries(rt: &HostRuntime, request: Request) -> io::Result<()> {
    for (j, entry) in request.entries.iter().enumerate() {
        // An admitted request has no entry whose node is missing.
        let Some(term) = request.store.owner(entry.node) else {
            continue;
        };
        let matches = Matches {
            store: request.store,
            parts: request.parts(),
            term,
        };
        println!(rt;
            "entry {j}: node {} term {term} pairs {} matches{matches}",
            entry.node, entry.pairs.len
        )?;
    }
    Ok(())
}

// The numbers of the parts that a term can match, each after a space.
#[derive(Clone, Copy)]
struct Matches<'a> {
    store: Store<'a>,
    parts: &'a [usize],
    term: usize,
}

impl Matches<'_> {
    fn can_match(&self, part: usize) -> bool {
        self.store
            .term(part)
            .zip(self.store.term(self.term))
            .is_some_and(|(part, term)| part.can_match(term))
    }
}

impl fmt::Display for Matches<'_> {
    fn fmt<W: fmt::Write>(&self, f: &mut fmt::Formatter<W>) -> fmt::Result {
        if !self.parts.iter().any(|part| self.can_match(*part)) {
            return f.write_str(" none");
        }
        for (i, part) in self.parts.iter().enumerate() {
            if self.can_match(*part) {
                write!(f, " {i}")?;
            }
        }
        Ok(())
    }
}
