// Which nodes are the same, by class numbers and by links.
use host::{ClassLinks, ClassNumbers, Host, Partition, TableHost};
use store::Store;

const WIDTH: usize = 8;

#[derive(Clone, Copy)]
struct Case<'t> {
    name: &'t str,
    table: &'t [usize],
    a: usize,
    b: usize,
}

fn named<'t>(name: &'t str, table: &'t [usize], a: usize, b: usize) -> Case<'t> {
    Case { name, table, a, b }
}

// Every two of the first eight numbers, six of which are nodes.
fn differs<G: Host, H: Host>(store: Store, one: &G, other: &H) -> Option<(usize, usize)> {
    (0..WIDTH * WIDTH).map(|k| (k / WIDTH, k % WIDTH)).find(|(a, b)| one.check_eq(store, *a, *b)
        != other.check_eq(store, *a, *b))
}

fn compare(
    rt: &HostRuntime,
    name: &str,
    store: Store,
    numbers: &[usize],
    links: &[usize],
) -> anyhow::Result<()> {
    let one = TableHost::new(&[], ClassNumbers(numbers), ClassNumbers(numbers));
    let other = TableHost::new(&[], ClassLinks(links), ClassLinks(links));
    match differs(store, &one, &other) {
        Some((a, b)) => println!(rt; "{name}: {a} and {b} differ")?,
        None => println!(rt; "{name}: alike")?,
    }
    Ok(())
}

fn say(rt: &HostRuntime, how: &str, case: Case, same: bool) -> anyhow::Result<()> {
    let name = case.name;
    let a = case.a;
    let b = case.b;
    println!(rt; "by {how}, {name}, {a} and {b}: {same}")?;
    Ok(())
}

// Each case by classes of this kind.
fn by<'t, P: Partition + Drop, F: Fn(&'t [usize]) -> P + Drop>(
    rt: &HostRuntime,
    how: &str,
    store: Store,
    cases: &[Case<'t>],
    classes: F,
) -> anyhow::Result<()>
    requires { F.IsAlwaysCallable classes }
{
    for case in cases {
        let host = TableHost::new(&[], classes(case.table), classes(&[]));
        say(rt, how, *case, host.check_eq(store, case.a, case.b))?;
    }
    Ok(())
}

fn number_cases() -> [Case<'static>; 13] {
    let classes: &[usize] = &[0, 0, 2, 2, 4, 5];
    let all: &[usize] = &[0, 0, 0, 0, 0, 0, 0];
    [
        named("one class", classes, 0, 1),
        named("one class", classes, 3, 2),
        named("two classes", classes, 1, 2),
        named("itself", classes, 5, 5),
        named("another number of the class", &[5, 5], 0, 1),
        named("table too short", &[0], 0, 1),
        named("table too short", &[0], 1, 2),
        named("table too short, itself", &[0], 2, 2),
        named("number names no node", &[6, 6], 0, 1),
        named("number names no node, itself", &[6, 6], 0, 0),
        named("one number names no node", &[1, usize::MAX], 0, 1),
        named("missing node", all, 0, 6),
        named("missing node, itself", all, 6, 6),
    ]
}

fn link_cases() -> [Case<'static>; 15] {
    let all: &[usize] = &[0, 0, 0, 0, 0, 0, 0];
    [
        named("linked", &[0, 0], 0, 1),
        named("linked by others", &[0, 0, 1, 2], 3, 0),
        named("one root", &[0, 0, 0, 2, 1], 3, 4),
        named("two roots", &[0, 1, 0, 1], 2, 3),
        named("links to themselves", &[0, 1], 0, 1),
        named("link to a higher node", &[1, 1], 0, 1),
        named("both to a higher node", &[2, 2, 2], 0, 1),
        named("link to no node", &[0, 6], 0, 1),
        named("cycle of two", &[1, 0], 0, 1),
        named("cycle of three", &[1, 2, 0], 0, 2),
        named("cycle of three", &[1, 2, 0], 1, 2),
        named("table too short", &[0], 1, 2),
        named("table too short, itself", &[], 2, 2),
        named("missing node", all, 0, 6),
        named("missing node, itself", all, 6, 6),
    ]
}

pub fn run(rt: &HostRuntime, store: Store) -> anyhow::Result<()> {
    by(rt, "numbers", store, &number_cases(), ClassNumbers)?;
    by(rt, "links", store, &link_cases(), ClassLinks)?;
    compare(
        rt,
        "two twos",
        store,
        &[0, 0, 2, 2, 4, 5],
        &[0, 0, 2, 2, 4, 5],
    )?;
    compare(
        rt,
        "a chain",
        store,
        &[3, 3, 3, 3, 5, 5],
        &[0, 0, 1, 2, 4, 4],
    )?;
    compare(rt, "all alone", store, &[], &[])?;
    compare(
        rt,
        "one class",
        store,
        &[1, 1, 1, 1, 1, 1],
        &[0, 0, 1, 0, 2, 3],
    )?;
    compare(rt, "other classes", store, &[0, 0], &[0, 1, 0])
}
