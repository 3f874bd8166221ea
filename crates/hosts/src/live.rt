// The live nodes of terms, from tables that may be short or wrong.
use crate::say::OrNone;
use crate::small;
use crate::small::{node, store_of};
use host::{ClassNumbers, Host, TableHost};
use store::Store;

#[derive(Clone, Copy)]
struct Case {
    name: &'static str,
    table: &'static [usize],
    term: usize,
}

fn named(name: &'static str, table: &'static [usize], term: usize) -> Case {
    Case { name, table, term }
}

fn say(rt: &HostRuntime, store: Store, case: Case) -> anyhow::Result<()> {
    let alone = ClassNumbers(&[]);
    let host = TableHost::new(case.table, alone, alone);
    let name = case.name;
    let term = case.term;
    let live = OrNone(host.get_enode_imm(store, term));
    println!(rt; "live node of term {term}, {name}: {live}")?;
    Ok(())
}

fn say_all(rt: &HostRuntime, store: Store, cases: &[Case]) -> anyhow::Result<()> {
    for case in cases {
        say(rt, store, *case)?;
    }
    Ok(())
}

// Nodes that open terms own, and one that no term of the store owns.
fn open_terms(rt: &HostRuntime) -> anyhow::Result<()> {
    let terms = small::terms();
    let nodes = [node(0), node(4), node(5), node(12)];
    let cases = [
        named("beside open terms", &[0], 0),
        named("a variable", &[0, 0, 0, 0, 1], 4),
        named("not closed", &[0, 0, 0, 0, 1, 2], 5),
        named("missing", &[0, 0, 0, 0, 1, 2, 0, 0, 0, 0, 0, 0, 3], 12),
    ];
    say_all(rt, store_of(&terms, &nodes), &cases)
}

pub fn run(rt: &HostRuntime, store: Store) -> anyhow::Result<()> {
    let table: &[usize] = &[0, 1, 2, 3, 4, 4, 4, 4, 4, 5];
    let cases = [
        named("owned", table, 0),
        named("owned", table, 3),
        named("owned", table, 8),
        named("owned", table, 9),
        named("no entry", &[0, 1], 2),
        named("no table", &[], 0),
        named("entry names a missing node", &[0, 1, 6], 2),
        named("entry names a missing node", &[usize::MAX], 0),
        named("owned by another term", &[0, 0], 1),
        named("owned by another term", table, 7),
    ];
    say_all(rt, store, &cases)?;
    open_terms(rt)
}
