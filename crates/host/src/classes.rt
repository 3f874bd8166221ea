// Classes of nodes, read from tables that may be short or wrong.
ghost use Rattle.std.specs.Prelude.{◌≡◌, ℕ, ◌<◌, Bool, true};
ghost use Rattle.host.specs.Reading.{label_at, numbered, link_at, root, linked};
ghost use Rattle.host.specs.Within.{numbered_within, linked_within};
ghost use Rattle.std.specs.List.{slice_get};

use store::lookup;

// Nodes put into classes.
pub trait Partition {
    // Whether one class holds both, among so many nodes.
    ghost joins: { Self → ℕ → ℕ → ℕ → Bool };

    fn are_joined(&self, nodes: usize, a: usize, b: usize) -> bool
        ensures { result ≡ joins self.now nodes a b };

    // The law that each impl proves: a class holds nodes only.
    ghost within: { (p : Self) (nodes a b : ℕ) → joins p nodes a b ≡ true → (a < nodes) × (b < nodes) };
}

// A class number for each node. A number that names no node is none, and its node is alone.
#[derive(Clone, Copy)]
pub struct ClassNumbers<'a>(pub &'a [usize]);

// A link for each node. One that does not lead to a lower node is none, and its node is a root.
#[derive(Clone, Copy)]
pub struct ClassLinks<'a>(pub &'a [usize]);

fn label(labels: &[usize], nodes: usize, n: usize) -> Option<usize>
    ensures { result ≡ label_at nodes (slice_get labels.now n) }
{
    lookup(labels, n).filter(|c| *c < nodes)
}

impl<'a> Partition for ClassNumbers<'a> {
    ghost joins = { λ p nodes a b. numbered nodes p.0.now a b };

    ghost within = { λ p. numbered_within p.0.now };

    fn are_joined(&self, nodes: usize, a: usize, b: usize) -> bool {
        if a >= nodes || b >= nodes {
            return false;
        }
        if a == b {
            return true;
        }
        match (label(self.0, nodes, a), label(self.0, nodes, b)) {
            (Some(c), Some(d)) => c == d,
            _ => false,
        }
    }
}

fn link(links: &[usize], n: usize) -> usize
    ensures { result ≡ link_at n (slice_get links.now n) }
{
    lookup(links, n).filter(|l| *l < n).unwrap_or(n)
}

fn root(links: &[usize], n: usize) -> usize
    ensures { result ≡ root links.now n }
{
    // It follows links and counts nothing, so no iterator of the library stands for it.
    let mut at = n;
    let mut next = link(links, at);
    while next < at {
        at = next;
        next = link(links, at);
    }
    at
}

impl<'a> Partition for ClassLinks<'a> {
    ghost joins = { λ p nodes a b. linked nodes p.0.now a b };

    ghost within = { λ p. linked_within p.0.now };

    fn are_joined(&self, nodes: usize, a: usize, b: usize) -> bool {
        a < nodes && b < nodes && root(self.0, a) == root(self.0, b)
    }
}
