// CustomEq: what the host knows to be the same, and else what is below.
use crate::scene::Scene;
use host::{ClassNumbers, TableHost};
use request::Pair;
use rewrite::{BasicEq, ComplexEq, CustomEq};
use store::Store;

static PAIRS: [Pair; 1] = [Pair { from: 0, to: 2 }];

fn over_complex(rt: &HostRuntime, scene: Scene) -> anyhow::Result<()> {
    let mut custom = scene.play(rt, CustomEq::new(ComplexEq::new(&PAIRS, &[])));
    custom.kind("custom")?;
    custom.ask("custom, same", 0, 1)?;
    custom.ask("custom, same the other way", 1, 0)?;
    custom.ask("custom, one node", 2, 2)?;
    custom.ask("custom, not same, below offers", 0, 3)?;
    custom.ask("custom, not same, nothing below", 1, 3)?;
    custom.ask("custom, pattern term not live, below offers", 0, 5)?;
    custom.ask("custom, term not live", 8, 0)
}

fn over_basic(rt: &HostRuntime, scene: Scene) -> anyhow::Result<()> {
    let mut custom = scene.play(rt, CustomEq::new(BasicEq::new(&PAIRS)));
    custom.ask("custom over basic, same", 0, 1)?;
    custom.state("custom over basic, nothing passed below")?;
    custom.ask("custom over basic, not same", 0, 2)?;
    custom.state("custom over basic, passed below")?;
    custom.back(0);
    custom.state("custom over basic, back to 0")?;
    custom.back(1);
    custom.state("custom over basic, back to 1")?;
    custom.reset();
    custom.state("custom over basic, reset")
}

pub fn run(rt: &HostRuntime, store: Store) -> anyhow::Result<()> {
    let loose = ClassNumbers(&[0, 0, 2, 2, 4, 5]);
    let strict = ClassNumbers(&[]);
    let host = TableHost::new(&[0, 1, 2, 3], loose, strict);
    let scene = Scene {
        store,
        host: &host,
        aside: &[],
    };
    over_complex(rt, scene)?;
    over_basic(rt, scene)
}
