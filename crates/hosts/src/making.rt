// Making equalities: each ground of refusal, and the numbers of those made.
use crate::say::{Ends, Made, OrNone};
use host::{ClassNumbers, Host, TableHost, TransEqAllowed};
use request::Pair;
use store::Store;

pub const NOTHING: TransEqAllowed = TransEqAllowed {
    can_mismatch_initial: false,
    can_mismatch_congr: false,
};

pub const INITIAL: TransEqAllowed = TransEqAllowed {
    can_mismatch_initial: true,
    can_mismatch_congr: false,
};

const CONGRUENCE: TransEqAllowed = TransEqAllowed {
    can_mismatch_initial: false,
    can_mismatch_congr: true,
};

const BOTH: TransEqAllowed = TransEqAllowed {
    can_mismatch_initial: true,
    can_mismatch_congr: true,
};

// An equality to make: from, to, and what is allowed.
pub type Making = (usize, usize, TransEqAllowed);

static REFUSALS: [Making; 8] = [
    (0, 6, BOTH),
    (6, 0, BOTH),
    (3, 3, BOTH),
    (6, 6, NOTHING),
    (0, 4, NOTHING),
    (0, 4, CONGRUENCE),
    (0, 2, NOTHING),
    (0, 2, INITIAL),
];

static MAKINGS: [Making; 10] = [
    (0, 4, INITIAL),
    (0, 2, CONGRUENCE),
    (0, 1, NOTHING),
    (4, 0, BOTH),
    (0, 4, BOTH),
    (0, 2, BOTH),
    (4, 0, INITIAL),
    (0, 1, BOTH),
    (0, 4, CONGRUENCE),
    (1, 0, NOTHING),
];

static ONE_MORE: [Making; 1] = [(5, 4, INITIAL)];

static STRICT_ALONE: [Making; 3] = [(0, 1, NOTHING), (0, 1, CONGRUENCE), (0, 1, INITIAL)];

fn make<H: Host>(
    rt: &HostRuntime,
    store: Store,
    host: &mut H,
    making: Making,
) -> anyhow::Result<()> {
    let (from, to, allowed) = making;
    let initial = allowed.can_mismatch_initial;
    let congr = allowed.can_mismatch_congr;
    let made = Made(host.new_trans_equality(store, Pair { from, to }, allowed));
    println!(rt; "making {from} to {to}, initial {initial}, congruence {congr}: {made}")?;
    Ok(())
}

pub fn make_all<H: Host>(
    rt: &HostRuntime,
    store: Store,
    host: &mut H,
    makings: &[Making],
) -> anyhow::Result<()> {
    for making in makings {
        make(rt, store, host, *making)?;
    }
    Ok(())
}

// The ends of the equalities with these numbers.
pub fn list<H: Host>(
    rt: &HostRuntime,
    store: Store,
    host: &H,
    numbers: &[usize],
) -> anyhow::Result<()> {
    for number in numbers {
        let ends = OrNone(host.from_to(store, *number).map(Ends));
        println!(rt; "equality {number}: {ends}")?;
    }
    Ok(())
}

// Asking changes nothing: every answer is let go.
fn ask_all<H: Host>(store: Store, host: &H) {
    for k in 0..8 {
        let _ = host.get_enode_imm(store, k);
        let _ = host.check_eq(store, k, 7 - k);
        let _ = host.from_to(store, k);
    }
}

pub fn run(rt: &HostRuntime, store: Store) -> anyhow::Result<()> {
    let loose = ClassNumbers(&[0, 0, 0, 0, 4, 5]);
    let strict = ClassNumbers(&[0, 0, 2, 2, 4, 5]);
    let mut host = TableHost::new(&[0, 1, 2, 3], loose, strict);
    make_all(rt, store, &mut host, &REFUSALS)?;
    list(rt, store, &host, &[0])?;
    make_all(rt, store, &mut host, &MAKINGS)?;
    list(rt, store, &host, &[0, 1, 2, 3, 4, 5])?;
    make_all(rt, store, &mut host, &REFUSALS)?;
    ask_all(store, &host);
    list(rt, store, &host, &[0, 1, 2, 3, 4, 5])?;
    make_all(rt, store, &mut host, &ONE_MORE)?;
    // A strict class holds nodes only where a loose class does.
    let mut apart = TableHost::new(&[], ClassNumbers(&[]), ClassNumbers(&[0, 0]));
    make_all(rt, store, &mut apart, &STRICT_ALONE)
}
