// A host with 4,096 equalities takes no other.
use crate::making::{INITIAL, Making, NOTHING, list, make_all};
use crate::small;
use crate::small::{node, store_of};
use host::{ClassNumbers, Host, TableHost};
use request::Pair;
use store::Store;

const MOST: usize = 4096;

const NODES: usize = 65;

static MAKINGS: [Making; 6] = [
    (64, 0, INITIAL),
    (64, 0, NOTHING),
    (64, 64, INITIAL),
    (0, 1, INITIAL),
    (63, 62, INITIAL),
    (0, 1, NOTHING),
];

// 64 equalities from each of the nodes 0 to 63: to each node but itself, the next one first.
fn pair(k: usize) -> Pair {
    let from = (k / 64) % 64;
    Pair {
        from,
        to: (from + 1 + k % 64) % NODES,
    }
}

// How many of the makings answered the numbers 0, 1, 2 and so on.
fn fill<H: Host>(store: Store, host: &mut H) -> usize {
    (0..MOST)
        .filter(|k| host.new_trans_equality(store, pair(*k), INITIAL) == Ok(*k))
        .count()
}

pub fn run(rt: &HostRuntime) -> anyhow::Result<()> {
    let terms = small::terms();
    let nodes = [node(0); NODES];
    let store = store_of(&terms, &nodes);
    let alone = ClassNumbers(&[]);
    let mut host = TableHost::new(&[], alone, alone);
    let in_order = fill(store, &mut host);
    println!(rt; "made in order: {in_order}")?;
    make_all(rt, store, &mut host, &MAKINGS)?;
    list(rt, store, &host, &[0, 4095, 4096])
}
