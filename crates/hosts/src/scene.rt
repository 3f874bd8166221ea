// A rewriter that is asked and moved, and what it answers.
use crate::say::OrNone;
use host::{ClassNumbers, TableHost};
use rewrite::{EqRewriter, Query};
use store::Store;

#[derive(Clone, Copy)]
pub struct Scene<'a> {
    pub store: Store<'a>,
    pub host: &'a TableHost<'a, ClassNumbers<'a>>,
    pub aside: &'a [usize],
}

impl<'a> Scene<'a> {
    pub fn play<R: EqRewriter>(self, rt: &'a HostRuntime, rewriter: R) -> Play<'a, R> {
        Play {
            rt,
            scene: self,
            rewriter,
        }
    }
}

// Each call but the last three prints a line that begins with the name of its case.
#[derive(Drop)]
pub struct Play<'a, R> {
    rt: &'a HostRuntime,
    scene: Scene<'a>,
    rewriter: R,
}

impl<'a, R: EqRewriter> Play<'a, R> {
    // One query at a term and a pattern term: what it offers in order, and the offer past the last.
    pub fn ask(&mut self, case: &str, blame: usize, subpat: usize) -> anyhow::Result<()> {
        let Scene { store, host, aside } = self.scene;
        let query = Query {
            store,
            host,
            aside,
            blame,
            subpat,
        };
        let mark = self.rewriter.mark();
        print!(self.rt; "{case}: ")?;
        let mut count = 0;
        match self.rewriter.possible_rewrite_count(&query) {
            Some(offered) => {
                let from = offered.from;
                count = offered.count;
                print!(self.rt; "from {from} to")?;
            }
            None => print!(self.rt; "nothing")?,
        }
        // An offer is asked for by its number, so this counts.
        for idx in 0..count {
            let to = OrNone(self.rewriter.possible_rewrite(&query, mark, idx));
            print!(self.rt; " {to}")?;
        }
        let past = OrNone(self.rewriter.possible_rewrite(&query, mark, count));
        println!(self.rt; " then {past}")?;
        Ok(())
    }

    // The mark, and whether it is finished.
    pub fn state(&self, case: &str) -> anyhow::Result<()> {
        let mark = self.rewriter.mark();
        let finished = self.rewriter.finished(self.scene.store);
        println!(self.rt; "{case}: mark {mark}, finished {finished}")?;
        Ok(())
    }

    // The coupling, and whether it forbids duplicates.
    pub fn kind(&self, case: &str) -> anyhow::Result<()> {
        let coupling = self.rewriter.coupling();
        let forbids = self.rewriter.forbid_dups();
        println!(self.rt; "{case}: {coupling:?}, forbids twice {forbids}")?;
        Ok(())
    }

    pub fn set_aside(&mut self, aside: &'a [usize]) {
        self.scene.aside = aside;
    }

    pub fn back(&mut self, mark: usize) {
        self.rewriter.back(mark);
    }

    pub fn reset(&mut self) {
        self.rewriter.reset();
    }
}
