// The search as a machine: its levels, the pairs that lie there, and what it does next. It has fixed memory and does not call itself,
// so what it does next is a mode and no closure.
ghost use Rattle.std.specs.Prelude.{◌≡◌, ◌≤◌, length, IfSome};
ghost use Rattle.matcher.specs.Laws.{FindsFirst, MoreFinds, CustomFinds, ForceFinds, FoundLeads};
ghost use Rattle.matcher.specs.Settings.{Sound, Ends, SearchedAt};
ghost use Rattle.matcher.specs.Stepping.{Starts, success};
ghost use Rattle.store.specs.Tables.{tables};

use crate::level::{Level, Mode};
use crate::setting::Setting;
use host::Host;
use request::Pair;
use rewrite::EqRewriter;
use store::{Fixed, Store};

mod turns;

// What a search finds: at most 64 pairs.
pub type Pairs = Fixed<Pair, 64>;

// The rewriter is passed along. A machine that held it would have to say in each method that it is still the same one.
#[derive(Drop)]
pub struct PatternMatcher {
    levels: Fixed<Level, 64>,
    pairs: Pairs,
    mode: Mode,
}

impl PatternMatcher {
    // About to enter a place.
    fn new(blame: usize, subpat: usize) -> Self
        ensures { Starts blame subpat result }
    {
        Self {
            levels: Fixed::new(Level::default()),
            pairs: Fixed::new(Pair { from: 0, to: 0 }),
            mode: Mode::Down { blame, subpat },
        }
    }

    // Takes turns until nothing is left to do.
    fn run<H: Host, R: EqRewriter>(&mut self, setting: &Setting<'_, H>, rewriter: &mut R)
        requires { Sound H.Host.meaning R.EqRewriter.rewriter R.EqRewriter.state setting.now self.old rewriter.old }
        ensures { Ends H.Host.meaning R.EqRewriter.rewriter R.EqRewriter.state setting.now self.old rewriter.old self.new rewriter.new }
    {
        while self.turn(setting, rewriter) {}
    }

    // Whether the place was reached, with a rewriter that is finished then.
    fn succeeded<R: EqRewriter>(&self, store: Store, rewriter: &R) -> bool
        ensures { result ≡ success self.now.mode ((R.EqRewriter.rewriter rewriter.now (tables store.entry)).finished (R.EqRewriter.state rewriter.now)) }
    {
        matches!(self.mode, Mode::Hit) && rewriter.finished(store)
    }

    // From the rewriter's first state. A success with a rewriter that is not finished is a miss, and a miss leaves it in its first state.
    fn search<H: Host, R: EqRewriter>(
        setting: &Setting<'_, H>,
        rewriter: &mut R,
        blame: usize,
        subpat: usize,
    ) -> Option<Pairs>
        ensures searched { SearchedAt H.Host.meaning setting.now (R.EqRewriter.rewriter rewriter.old) blame subpat result (R.EqRewriter.state rewriter.new) }
        ensures few { IfSome result (λ pairs. length pairs ≤ 64) }
        ensures same { R.EqRewriter.rewriter rewriter.new ≡ R.EqRewriter.rewriter rewriter.old }
    {
        rewriter.reset();
        let _ = setting.request.places(subpat)?;
        let mut matcher = Self::new(blame, subpat);
        matcher.run(setting, rewriter);
        if matcher.succeeded(setting.request.store, rewriter) {
            return Some(matcher.pairs);
        }
        rewriter.reset();
        None
    }

    // The pairs that lead from a term to a pattern term, or a miss. One with over 64 places is missed; a part of an admitted request has at most 64.
    pub fn check_match<H: Host, R: EqRewriter>(
        setting: &Setting<'_, H>,
        rewriter: &mut R,
        blame: usize,
        subpat: usize,
    ) -> Option<Pairs>
        ensures searched { SearchedAt H.Host.meaning setting.now (R.EqRewriter.rewriter rewriter.old) blame subpat result (R.EqRewriter.state rewriter.new) }
        ensures few { IfSome result (λ pairs. length pairs ≤ 64) }
        ensures same { R.EqRewriter.rewriter rewriter.new ≡ R.EqRewriter.rewriter rewriter.old }
        ensures finds_first { FindsFirst }
        ensures more_finds { MoreFinds }
        ensures custom_finds { CustomFinds }
        ensures force_finds { ForceFinds }
        ensures found_leads { FoundLeads }
    {
        Self::search(setting, rewriter, blame, subpat)
    }
}
