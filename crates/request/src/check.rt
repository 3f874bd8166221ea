// The check of a request: the first ground that holds, at what is at fault first.
ghost use Rattle.std.specs.Prelude.{◌≡◌, ℕ, ◌<◌, length, Decides, MatchResult};
ghost use Rattle.request.specs.Asked.{asked, part_at, BoundClosed};
ghost use Rattle.request.specs.Grounds.{PatternRules, PartRules, PlaceBound, BindingRules, CountRules, EntryRules, PairRules, Faulted, Checked, EachPart, EachEntry, EachPair, PartBound};
ghost use Rattle.request.specs.Laws.{AdmittedKeeps};
ghost use Rattle.std.specs.List.{All};
ghost use Rattle.store.specs.declared.fault.Refusal.TheVariants.{BadPattern, BadPart, BadBindings, BadEntryCount, BadEntry};
ghost use Rattle.store.specs.Rules.{StoreRules};

use crate::kinds::{LogEntry, Pair};
use crate::places::variable_at;
use crate::request::Request;
use store::{Culprit, Fault, HasVar, Refusal, TermKind, cut};

const MOST_PARTS: usize = 16;

const MOST_BINDINGS: usize = 32;

const MOST_ENTRIES: usize = 64;

const MOST_ENTRY_PAIRS: usize = 64;

const MOST_PAIRS: usize = 4096;

impl Request<'_> {
    fn check_pattern(self) -> Result<(), Fault>
        ensures { MatchResult result (λ _. PatternRules (asked self.entry)) (Faulted (asked self.entry) BadPattern) }
    {
        let fault = Fault::finder(Refusal::BadPattern, Culprit::Nothing);
        let Some(term) = self.store.term(self.pattern) else {
            return Err(fault);
        };
        let TermKind::App(_) = term.kind else {
            return Err(fault);
        };
        let count = self.parts().len();
        if count < 1 || count > MOST_PARTS {
            return Err(fault);
        }
        Ok(())
    }

    fn is_good_part(self, part: usize) -> bool
        requires ruled { StoreRules (asked self).store }
        requires there { part < length (asked self).store.terms }
        ensures { Decides result (PartRules (asked self.entry).store part) }
    {
        if self.store.has_var(part) == HasVar::Unknown {
            return false;
        }
        self.places(part).is_some()
    }

    // The loops over parts, entries and pairs are three: one for all, handed a test and a culprit, needs longer clauses than it saves.
    fn check_parts(self) -> Result<(), Fault>
        requires { StoreRules (asked self).store }
        ensures { MatchResult result (λ _. EachPart (asked self.entry)) (Faulted (asked self.entry) BadPart) }
    {
        for (i, part) in self.parts().iter().enumerate() {
            if !self.is_good_part(*part) {
                return Err(Fault::finder(Refusal::BadPart, Culprit::Part(i)));
            }
        }
        Ok(())
    }

    fn is_bound_closed(self, var: usize) -> bool
        ensures { Decides result (BoundClosed (asked self.entry) var) }
    {
        // A match: what `is_some_and` ensures splits no case in the proof.
        match self.bound.bound_term(self.store, var) {
            Some(t) => self.store.is_closed(t),
            None => false,
        }
    }

    // A place that is no variable is bound by itself.
    fn is_place_bound(self, place: usize) -> bool
        ensures { Decides result (PlaceBound (asked self.entry) place) }
    {
        let Some(v) = variable_at(self.store, place) else {
            return true;
        };
        self.is_bound_closed(v)
    }

    fn are_places_bound(self, places: &[usize]) -> bool
        ensures { Decides result (All (PlaceBound (asked self.entry)) places.now) }
    {
        places.iter().all(|s| self.is_place_bound(*s))
    }

    fn is_part_bound(self, part: usize) -> bool
        requires { PartRules (asked self).store part }
        ensures { Decides result (PartBound (asked self.entry) part) }
    {
        // A match for the same reason.
        match self.places(part) {
            Some(places) => self.are_places_bound(places.as_slice()),
            None => false,
        }
    }

    fn check_bindings(self) -> Result<(), Fault>
        requires { EachPart (asked self) }
        ensures { MatchResult result (λ _. BindingRules (asked self.entry)) (Faulted (asked self.entry) BadBindings) }
    {
        let fault = Fault::finder(Refusal::BadBindings, Culprit::Nothing);
        if self.bound.count() > MOST_BINDINGS {
            return Err(fault);
        }
        // A loop and no `all`: a part may be asked only if it keeps its rules, and a closure would have to say so.
        for part in self.parts() {
            if !self.is_part_bound(*part) {
                return Err(fault);
            }
        }
        Ok(())
    }

    fn check_entry_count(self) -> Result<(), Fault>
        ensures { MatchResult result (λ _. CountRules (asked self.entry)) (Faulted (asked self.entry) BadEntryCount) }
    {
        let count = self.entries.len();
        if count < self.parts().len() || count > MOST_ENTRIES {
            return Err(Fault::finder(Refusal::BadEntryCount, Culprit::Nothing));
        }
        Ok(())
    }

    fn is_good_entry(self, entry: LogEntry) -> bool
        ensures { Decides result (EntryRules (asked self.entry) entry) }
    {
        let Some(term) = self.store.owner(entry.node) else {
            return false;
        };
        if !self.store.is_closed(term) {
            return false;
        }
        entry.pairs.len <= MOST_ENTRY_PAIRS && cut(self.pairs, entry.pairs).is_some()
    }

    fn check_entries(self) -> Result<(), Fault>
        ensures { MatchResult result (λ _. EachEntry (asked self.entry)) (Faulted (asked self.entry) BadEntry) }
    {
        for (j, entry) in self.entries.iter().enumerate() {
            if !self.is_good_entry(*entry) {
                return Err(Fault::finder(Refusal::BadEntry, Culprit::Entry(j)));
            }
        }
        Ok(())
    }

    fn is_good_pair(self, k: usize, pair: Pair) -> bool
        ensures { Decides result (PairRules (asked self.entry) k pair) }
    {
        let nodes = self.store.nodes.len();
        k < MOST_PAIRS && pair.from < nodes && pair.to < nodes
    }

    fn check_pairs(self) -> Result<(), Fault>
        requires { EachEntry (asked self) }
        ensures { MatchResult result (λ _. EachPair (asked self.entry)) (Faulted (asked self.entry) BadEntry) }
    {
        for (k, pair) in self.pairs.iter().enumerate() {
            if !self.is_good_pair(k, *pair) {
                return Err(Fault::finder(Refusal::BadEntry, Culprit::TablePair(k)));
            }
        }
        Ok(())
    }

    // Refuses a request on the first ground that holds.
    pub fn check(self) -> Result<(), Fault>
        ensures answer { Checked (asked self.entry) result }
        ensures laws { AdmittedKeeps }
    {
        self.store.check()?;
        self.check_pattern()?;
        self.check_parts()?;
        self.check_bindings()?;
        self.check_entry_count()?;
        self.check_entries()?;
        self.check_pairs()
    }
}
