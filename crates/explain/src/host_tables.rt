// The tables of a host, with an item for each term or node, as its lines give them.
ghost use Rattle.std.specs.Prelude.{◌≡◌, ℕ, IfOk, slice_set};
ghost use Rattle.std.specs.Fn.{FnReturnsAt};
ghost use Rattle.explain.specs.Given.{Reads, given, none_given};

use crate::host_text::ClassKind;
use host::{Partition, TableHost};
use std::alloc::{AllocError, Global};

// What stands where no line gives a number. No node has it; a host reads plain numbers, so none is one too.
const NO_NODE: usize = usize::MAX;

// A line that names what the store has not gives nothing.
fn put(table: &mut Vec<usize>, at: usize, number: usize)
    ensures { table.new.items ≡ slice_set table.old.items at number }
{
    if let Some(item) = table.get_mut(at) {
        *item = number;
    }
}

// The table of this size to which each line gives its number at its place.
pub(crate) fn table<L, P: Fn(&L) -> usize, N: Fn(&L) -> usize>(
    lines: &[L],
    place: P,
    number: N,
    size: usize,
    heap: Global,
) -> Result<Vec<usize>, AllocError>
    ghost reads: { (L → ℕ) × (L → ℕ) }
    requires place_callable { P.IsAlwaysCallable place }
    requires number_callable { N.IsAlwaysCallable number }
    requires place { Reads (P.post place) reads.0 }
    requires number { Reads (N.post number) reads.1 }
    ensures { IfOk result (λ t. t.items ≡ given reads.0 reads.1 (none_given size) lines.now) }
{
    let mut table = vec![in heap; NO_NODE; size]?;
    for line in lines {
        put(&mut table, place(line), number(line));
    }
    Ok(table)
}

// The live node of each term, and the classes of each node in two tables, as the host takes them.
#[derive(Drop)]
pub struct HostTables {
    pub live: Vec<usize>,
    pub class_kind: ClassKind,
    pub loose: Vec<usize>,
    pub strict: Vec<usize>,
}

impl HostTables {
    // The host whose classes are read from their tables in this way.
    pub(crate) fn host<'a, P: Partition, F: Fn(&'a [usize]) -> P>(
        &'a self,
        classes: F,
    ) -> TableHost<'a, P>
        requires { F.IsAlwaysCallable classes }
        ensures live { result.live.now ≡ self.now.live.items }
        ensures loose { FnReturnsAt F.Fn classes self.now.loose.items result.loose }
        ensures strict { FnReturnsAt F.Fn classes self.now.strict.items result.strict }
    {
        TableHost::new(
            self.live.as_slice(),
            classes(self.loose.as_slice()),
            classes(self.strict.as_slice()),
        )
    }
}
