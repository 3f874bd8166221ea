// What is printed of a host: the live nodes, and the nodes that are same.
ghost use Rattle.std.specs.Prelude.{◌≡◌, length, IfOk};
ghost use Rattle.explain.specs.Same.{same_below};
ghost use Rattle.store.specs.Tables.{tables};

use host::Host;
use std::alloc::{AllocError, Global};
use std::{fmt, io};
use store::Store;

pub fn show_host<H: Host>(rt: &HostRuntime, store: Store, host: &H) -> anyhow::Result<()> {
    show_live(rt, store, host)?;
    show_same(rt, store, host)
}

// Terms and nodes are known by their numbers alone, so these loops count.
fn show_live<H: Host>(rt: &HostRuntime, store: Store, host: &H) -> io::Result<()> {
    for term in 0..store.terms.len() {
        if let Some(node) = host.get_enode_imm(store, term) {
            println!(rt; "live {term} {node}")?;
        }
    }
    Ok(())
}

// A node that is alone gets no line.
fn show_same<H: Host>(rt: &HostRuntime, store: Store, host: &H) -> anyhow::Result<()> {
    for node in 0..store.nodes.len() {
        let others = same_as(rt.alloc(), store, host, node)?;
        if !others.is_empty() {
            println!(rt; "same {node}{}", Numbers(others.as_slice()))?;
        }
    }
    Ok(())
}

// The other nodes that are same as this one.
fn same_as<H: Host>(
    heap: Global,
    store: Store,
    host: &H,
    node: usize,
) -> Result<Vec<usize>, AllocError>
    ensures { IfOk result (λ v. v.items ≡ same_below (H.Host.meaning host.now (tables store.entry)).loose node (length (tables store.entry).nodes)) }
{
    (0..store.nodes.len())
        .filter(|other| *other != node && host.check_eq(store, node, *other))
        .collect(heap)
}

// Numbers, each after a space.
#[derive(Clone, Copy)]
pub struct Numbers<'a>(pub &'a [usize]);

impl fmt::Display for Numbers<'_> {
    fn fmt<W: fmt::Write>(&self, f: &mut fmt::Formatter<W>) -> fmt::Result {
        for number in self.0 {
            write!(f, " {number}")?;
        }
        Ok(())
    }
}
