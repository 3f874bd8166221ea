// ComplexEq: the pairs both ways, its own and then the booked ones.
use crate::scene::Scene;
use crate::small;
use crate::small::{node, store_of};
use host::{ClassNumbers, TableHost};
use request::Pair;
use rewrite::ComplexEq;
use store::Store;

static OWN: [Pair; 4] = [
    Pair { from: 0, to: 1 },
    Pair { from: 1, to: 0 },
    Pair { from: 3, to: 3 },
    Pair { from: 0, to: 6 },
];

static BOOKED: [Pair; 2] = [Pair { from: 2, to: 0 }, Pair { from: 0, to: 3 }];

static SHARED: [Pair; 3] = [
    Pair { from: 1, to: 6 },
    Pair { from: 0, to: 6 },
    Pair { from: 2, to: 0 },
];

// Nodes 0 and 6 are both owned by term 0.
fn two_nodes(rt: &HostRuntime) -> anyhow::Result<()> {
    let terms = small::terms();
    let nodes = [
        node(0),
        node(1),
        node(2),
        node(3),
        node(8),
        node(9),
        node(0),
    ];
    let alone = ClassNumbers(&[]);
    let host = TableHost::new(&[], alone, alone);
    let scene = Scene {
        store: store_of(&terms, &nodes),
        host: &host,
        aside: &[],
    };
    let mut own = scene.play(rt, ComplexEq::new(&SHARED, &[]));
    own.ask("complex, a term with two nodes", 0, 0)?;
    let mut booked = scene.play(rt, ComplexEq::new(&[], &SHARED));
    booked.ask("complex, the same booked", 0, 0)
}

fn own_and_booked(rt: &HostRuntime, scene: Scene) -> anyhow::Result<()> {
    let mut complex = scene.play(rt, ComplexEq::new(&OWN, &BOOKED));
    complex.kind("complex")?;
    complex.state("complex, new")?;
    complex.ask("complex, own then booked", 0, 1)?;
    complex.ask("complex, the same again", 0, 1)?;
    complex.ask("complex, turned first", 1, 0)?;
    complex.ask("complex, equal nodes passed over", 3, 0)?;
    complex.ask("complex, booked only", 2, 0)?;
    complex.ask("complex, no pair at the term", 8, 0)?;
    complex.back(3);
    complex.state("complex, back to 3, which marks none")?;
    complex.reset();
    complex.state("complex, reset")
}

pub fn run(rt: &HostRuntime, store: Store) -> anyhow::Result<()> {
    let alone = ClassNumbers(&[]);
    let host = TableHost::new(&[], alone, alone);
    let scene = Scene {
        store,
        host: &host,
        aside: &[],
    };
    own_and_booked(rt, scene)?;
    let mut exchanged = scene.play(rt, ComplexEq::new(&BOOKED, &OWN));
    exchanged.ask("complex, the tables exchanged", 0, 1)?;
    let mut empty = scene.play(rt, ComplexEq::new(&[], &[]));
    empty.ask("complex, no pair", 0, 1)?;
    two_nodes(rt)
}
