// ForceEq: any two live nodes, else what is below, and at last the nodes set aside.
use crate::scene::Scene;
use host::{ClassNumbers, TableHost};
use request::Pair;
use rewrite::{BasicEq, ComplexEq, CustomEq, ForceEq};
use store::Store;

static PAIRS: [Pair; 1] = [Pair { from: 0, to: 3 }];

static NOT_LIVE: [Pair; 1] = [Pair { from: 5, to: 2 }];

fn over_complex(rt: &HostRuntime, scene: Scene) -> anyhow::Result<()> {
    let mut force = scene.play(rt, ForceEq::new(ComplexEq::new(&PAIRS, &[])));
    force.kind("force")?;
    force.ask("force, both live", 1, 2)?;
    force.ask("force, both live, below offers too", 0, 1)?;
    force.ask("force, pattern term not live, below offers", 0, 5)?;
    force.ask("force, pattern term live, term not", 9, 0)?;
    force.ask("force, neither live", 9, 5)?;
    force.ask("force, set-aside nodes", 1, 5)?;
    force.set_aside(&[]);
    force.ask("force, none set aside", 1, 5)?;
    let mut not_live = scene.play(rt, ForceEq::new(ComplexEq::new(&NOT_LIVE, &[])));
    not_live.ask("force, term not live, below offers", 9, 0)
}

fn over_basic(rt: &HostRuntime, scene: Scene) -> anyhow::Result<()> {
    let mut force = scene.play(rt, ForceEq::new(CustomEq::new(BasicEq::new(&PAIRS))));
    force.ask("force over basic, both live", 0, 1)?;
    force.state("force over basic, nothing passed below")?;
    force.ask("force over basic, below offers", 0, 5)?;
    force.state("force over basic, passed below")?;
    force.ask("force over basic, nothing left below", 0, 5)?;
    force.state("force over basic, stays")?;
    force.back(0);
    force.state("force over basic, back to 0")?;
    force.back(2);
    force.state("force over basic, back to 2, which marks none")?;
    force.back(1);
    force.reset();
    force.state("force over basic, reset")
}

pub fn run(rt: &HostRuntime, store: Store) -> anyhow::Result<()> {
    let alone = ClassNumbers(&[]);
    let host = TableHost::new(&[0, 1, 2, 3], alone, alone);
    let scene = Scene {
        store,
        host: &host,
        aside: &[4, 1, 0],
    };
    over_complex(rt, scene)?;
    over_basic(rt, scene)
}
