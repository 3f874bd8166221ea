// BasicEq: the logged pairs, each once and in their order.
use crate::scene::{Play, Scene};
use host::{ClassNumbers, TableHost};
use request::Pair;
use rewrite::BasicEq;
use store::Store;

static PAIRS: [Pair; 7] = [
    Pair { from: 0, to: 0 },
    Pair { from: 0, to: 6 },
    Pair { from: 7, to: 0 },
    Pair { from: 0, to: 1 },
    Pair { from: 1, to: 0 },
    Pair { from: 2, to: 2 },
    Pair { from: 2, to: 3 },
];

static PASSED_OVER: [Pair; 2] = [Pair { from: 1, to: 1 }, Pair { from: 6, to: 1 }];

fn in_order(basic: &mut Play<'_, BasicEq<'_>>) -> anyhow::Result<()> {
    basic.kind("basic")?;
    basic.state("basic, new")?;
    basic.ask("basic, the next pair leaves from another term", 1, 0)?;
    basic.state("basic, no pair passed")?;
    basic.ask("basic, three passed over", 0, 1)?;
    basic.state("basic, pair 3 passed")?;
    basic.ask("basic, a pair is used once", 0, 1)?;
    basic.ask("basic, the next pair", 1, 9)?;
    basic.state("basic, pair 4 passed")?;
    basic.ask("basic, equal nodes passed over", 2, 0)?;
    basic.state("basic, all passed")?;
    basic.ask("basic, no pair left", 2, 0)?;
    basic.state("basic, all passed")
}

fn back(basic: &mut Play<'_, BasicEq<'_>>) -> anyhow::Result<()> {
    basic.back(4);
    basic.state("basic, back to 4")?;
    basic.ask("basic, the pair at 4 again", 1, 0)?;
    basic.state("basic, after it")?;
    basic.back(7);
    basic.state("basic, back to 7")?;
    basic.back(8);
    basic.state("basic, back to 8, which marks none")?;
    basic.back(6);
    basic.state("basic, back to 6")?;
    basic.reset();
    basic.state("basic, reset")?;
    basic.ask("basic, the first again", 0, 0)
}

fn passed_over(rt: &HostRuntime, scene: Scene) -> anyhow::Result<()> {
    let mut basic = scene.play(rt, BasicEq::new(&PASSED_OVER));
    basic.state("basic, only pairs to pass over")?;
    basic.ask("basic, only pairs to pass over", 1, 0)?;
    basic.state("basic, none of them passed")
}

pub fn run(rt: &HostRuntime, store: Store) -> anyhow::Result<()> {
    let alone = ClassNumbers(&[]);
    let host = TableHost::new(&[], alone, alone);
    let scene = Scene {
        store,
        host: &host,
        aside: &[],
    };
    let mut basic = scene.play(rt, BasicEq::new(&PAIRS));
    in_order(&mut basic)?;
    back(&mut basic)?;
    passed_over(rt, scene)
}
