// Hosts and rewriters over a small store: one line for each case.
#![tactic(auto)]

mod basic;
mod classes;
mod complex;
mod custom;
mod force;
mod full;
mod live;
mod making;
mod say;
mod scene;
mod small;

use small::store_of;

fn run(rt: &HostRuntime) -> anyhow::Result<()> {
    let terms = small::terms();
    let nodes = small::nodes();
    let store = store_of(&terms, &nodes);
    let kept = store.check().is_ok();
    println!(rt; "the store keeps its rules: {kept}")?;
    live::run(rt, store)?;
    classes::run(rt, store)?;
    making::run(rt, store)?;
    full::run(rt)?;
    basic::run(rt, store)?;
    complex::run(rt, store)?;
    custom::run(rt, store)?;
    force::run(rt, store)
}

fn main(rt: HostRuntime) -> anyhow::Result<()> {
    run(&rt)
}
