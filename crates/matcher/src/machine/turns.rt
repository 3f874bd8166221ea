// The turns of the machine.
ghost use Rattle.std.specs.Prelude.{◌≡◌, ℕ, ◌<◌, [], ◌∷◌, length, Some};
ghost use Rattle.matcher.specs.declared.level.Mode.TheVariants.{Down};
ghost use Rattle.matcher.specs.Settings.{Sound, StackedOff, AsksAt, Steps, StepsOff, Turned};
ghost use Rattle.matcher.specs.Stepping.{stack, Settles, Opens, Advances, Takes};
ghost use Rattle.matcher.specs.Trees.{child_at};
ghost use Rattle.store.specs.Tables.{tables};

use super::PatternMatcher;
use crate::exact::owned_pair;
use crate::level::{Level, Mode, Place, Taken, Trying};
use crate::place::{child, fits, place, taken};
use crate::setting::Setting;
use host::Host;
use request::Pair;
use rewrite::EqRewriter;
use store::Store;

// A level that is gone on with has been taken off the list, so there is room for it. No invariant of the type says that, since it is full
// at times; so the calls between ask for the room.
impl PatternMatcher {
    // A term that was matched whole by a pair, or not.
    fn settle(&mut self, by: Option<Pair>)
        requires { length self.old.pairs < 64 }
        ensures { Settles self.old by self.new }
    {
        self.mode = Mode::Miss;
        if let Some(pair) = by {
            let _ = self.pairs.push(pair);
            self.mode = Mode::Hit;
        }
    }

    // Opens a level for an application whose children are places: first the term as it is.
    fn open(&mut self, store: Store, blame: usize, subpat: usize, mark: usize)
        requires { length self.old.levels < 64 }
        ensures { Opens (tables store.entry) self.old blame subpat mark self.new }
    {
        let _ = self.levels.push(Level {
            blame,
            subpat,
            term: blame,
            child: 0,
            before: mark,
            phase: None,
            start: self.pairs.count(),
        });
        self.mode = if fits(store, blame, subpat) {
            Mode::Hit
        } else {
            Mode::Miss
        };
    }

    // Enters a place.
    fn on_down<H: Host, R: EqRewriter>(
        &mut self,
        setting: &Setting<'_, H>,
        rewriter: &mut R,
        blame: usize,
        subpat: usize,
    )
        requires mode { self.old.mode ≡ Down blame subpat }
        requires sound { Sound H.Host.meaning R.EqRewriter.rewriter R.EqRewriter.state setting.now self.old rewriter.old }
        ensures { Steps H.Host.meaning R.EqRewriter.rewriter R.EqRewriter.state setting.now self.old rewriter.old self.new rewriter.new }
    {
        if blame == subpat {
            self.mode = Mode::Hit;
            return;
        }
        match place(setting.request, subpat) {
            None => self.mode = Mode::Miss,
            Some(Place::Whole(term)) if blame == term => self.mode = Mode::Hit,
            Some(Place::Whole(term)) => {
                let by = owned_pair(&setting.query(blame, term), rewriter);
                self.settle(by);
            }
            Some(Place::Opened) => {
                let mark = rewriter.mark();
                self.open(setting.request.store, blame, subpat, mark);
            }
        }
    }

    // Goes on after a child that was reached: with the next one, or, behind the last, with what comes after the level.
    fn on_hit(&mut self, store: Store, level: Level)
        requires { length self.old.levels < 64 }
        ensures { Advances self.old level (child_at (tables store.entry) level.subpat level.child) (child_at (tables store.entry) level.term level.child) self.new }
    {
        let n = level.child;
        match (child(store, level.subpat, n), child(store, level.term, n)) {
            (None, _) => self.mode = Mode::Hit,
            (Some(_), None) => {
                let _ = self.levels.push(level);
                self.mode = Mode::Miss;
            }
            (Some(subpat), Some(blame)) => {
                let _ = self.levels.push(Level {
                    child: n + 1,
                    ..level
                });
                self.mode = Mode::Down { blame, subpat };
            }
        }
    }

    // The term itself has failed: asks for offers, from the state before.
    fn ask<H: Host, R: EqRewriter>(
        &mut self,
        setting: &Setting<'_, H>,
        rewriter: &mut R,
        level: Level,
    )
        requires { length self.old.levels < 64 }
        ensures { AsksAt H.Host.meaning R.EqRewriter.rewriter R.EqRewriter.state setting.now self.old level rewriter.old self.new rewriter.new }
    {
        rewriter.back(level.before);
        self.mode = Mode::Miss;
        let query = setting.query(level.blame, level.subpat);
        if let Some(offered) = rewriter.possible_rewrite_count(&query) {
            let phase = Some(Trying {
                after: rewriter.mark(),
                offered,
                tried: 0,
            });
            let _ = self.levels.push(Level { phase, ..level });
        }
    }

    // Goes on with an offer that fits, else leaves the level to the next.
    fn take(&mut self, level: Level, from: usize, offer: Option<Taken>)
        requires levels { length self.old.levels < 64 }
        requires pairs { length self.old.pairs < 64 }
        ensures { Takes self.old level from offer self.new }
    {
        let Some(Taken { node, term }) = offer else {
            let _ = self.levels.push(level);
            self.mode = Mode::Miss;
            return;
        };
        let _ = self.pairs.push(Pair { from, to: node });
        let _ = self.levels.push(Level {
            term,
            child: 0,
            ..level
        });
        self.mode = Mode::Hit;
    }

    // An offer has failed, or none is tried yet: takes the next one, from the state just after the query.
    fn offer<H: Host, R: EqRewriter>(
        &mut self,
        setting: &Setting<'_, H>,
        rewriter: &mut R,
        level: Level,
        trying: Trying,
    )
        requires phase { level.phase ≡ Some trying }
        requires sound { StackedOff H.Host.meaning R.EqRewriter.rewriter R.EqRewriter.state setting.now level self.old rewriter.old }
        ensures { StepsOff H.Host.meaning R.EqRewriter.rewriter R.EqRewriter.state setting.now level self.old rewriter.old self.new rewriter.new }
    {
        if trying.tried >= trying.offered.count {
            self.mode = Mode::Miss;
            return;
        }
        rewriter.back(trying.after);
        self.pairs.truncate(level.start);
        let query = setting.query(level.blame, level.subpat);
        let offer = rewriter
            .possible_rewrite(&query, level.before, trying.tried)
            .and_then(|node| taken(query.store, node, level.subpat));
        let phase = Some(Trying {
            tried: trying.tried + 1,
            ..trying
        });
        self.take(Level { phase, ..level }, trying.offered.from, offer);
    }

    // One turn; false where nothing is left to do.
    pub(super) fn turn<H: Host, R: EqRewriter>(
        &mut self,
        setting: &Setting<'_, H>,
        rewriter: &mut R,
    ) -> bool
        requires { Sound H.Host.meaning R.EqRewriter.rewriter R.EqRewriter.state setting.now self.old rewriter.old }
        ensures { Turned H.Host.meaning R.EqRewriter.rewriter R.EqRewriter.state setting.now self.old rewriter.old result self.new rewriter.new }
    {
        if let Mode::Down { blame, subpat } = self.mode {
            self.on_down(setting, rewriter, blame, subpat);
            return true;
        }
        let Some(level) = self.levels.pop() else {
            return false;
        };
        match (self.mode, level.phase) {
            (Mode::Hit, _) => self.on_hit(setting.request.store, level),
            (_, None) => self.ask(setting, rewriter, level),
            (_, Some(trying)) => self.offer(setting, rewriter, level, trying),
        }
        true
    }
}
