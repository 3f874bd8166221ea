// A host that reads its live nodes and classes from tables, and lists up to 4,096 equalities.
ghost use Rattle.std.specs.Prelude.{◌≡◌, ℕ, ◌≤◌, length, Some, MatchOption, ◌≢◌};
ghost use Rattle.host.specs.Meaning.{Permits, Makes, in_host};
ghost use Rattle.std.specs.List.{slice_get};
ghost use Rattle.store.specs.Tables.{tables};

use crate::allowed::TransEqAllowed;
use crate::classes::Partition;
use crate::host::Host;
use request::Pair;
use store::{Culprit, Fault, Fixed, Layer, Refusal, Store, lookup};

#[derive(Drop)]
pub struct TableHost<'a, P> {
    live: &'a [usize],
    loose: P,
    strict: P,
    made: Fixed<Pair, 4096>,
    ghost few: { length made ≤ 4096 },
}

// The number of an equality with these ends.
fn position(pairs: &[Pair], ends: Pair) -> Option<usize>
    ensures { MatchOption result ((k : ℕ) → slice_get pairs.now k ≢ Some ends) (λ k. slice_get pairs.now k ≡ Some ends) }
{
    pairs.iter().position(|pair| *pair == ends)
}

fn refused(refusal: Refusal) -> Fault
    ensures { result ≡ in_host refusal }
{
    Fault {
        refusal,
        layer: Layer::Host,
        culprit: Culprit::Nothing,
    }
}

impl<'a, P: Partition> TableHost<'a, P> {
    ghost use Rattle.host.specs.Tabled.{tabled, Fresh};

    // A host with no equality yet: a live node for each term, and two tables of classes of the nodes.
    pub fn new(live: &'a [usize], loose: P, strict: P) -> Self
        ensures { Fresh result live.now loose strict }
    {
        TableHost {
            live,
            loose,
            strict,
            made: Fixed::new(Pair { from: 0, to: 0 }),
        }
    }

    // Ends that are apart need the initial allowance, ends that are only loosely joined the congruence allowance.
    fn permit(&self, store: Store, ends: Pair, allowed: TransEqAllowed) -> Result<(), Fault>
        ensures { Permits (tabled P.Partition.joins (tables store.entry) self.now) ends allowed result }
    {
        let nodes = store.nodes.len();
        if !self.loose.are_joined(nodes, ends.from, ends.to) {
            if !allowed.can_mismatch_initial {
                return Err(refused(Refusal::EndsApart));
            }
            return Ok(());
        }
        if !self.strict.are_joined(nodes, ends.from, ends.to) {
            if !allowed.can_mismatch_congr {
                return Err(refused(Refusal::EndsLooselyJoined));
            }
        }
        Ok(())
    }
}

impl<'a, P: Partition> Host for TableHost<'a, P> {
    ghost use Rattle.host.specs.Tabled.{tabled};
    ghost use Rattle.host.specs.Kept.{tabled_rules};

    ghost meaning = { λ h S. tabled P.Partition.joins S h };

    ghost rules = { λ h S. tabled_rules P.Partition.joins P.Partition.within S h };

    fn get_enode_imm(&self, store: Store, term: usize) -> Option<usize> {
        let node = lookup(self.live, term)?;
        (store.is_owned(node, term) && store.is_closed(term)).then_some(node)
    }

    fn check_eq(&self, store: Store, a: usize, b: usize) -> bool {
        self.loose.are_joined(store.nodes.len(), a, b)
    }

    fn from_to(&self, store: Store, equality: usize) -> Option<Pair> {
        self.made.get(equality)
    }

    fn new_trans_equality(
        &mut self,
        store: Store,
        ends: Pair,
        allowed: TransEqAllowed,
    ) -> Result<usize, Fault> {
        if !ends.is_proper(store) {
            return Err(refused(Refusal::BadEnds));
        }
        self.permit(store, ends, allowed)?;
        if let Some(k) = position(self.made.as_slice(), ends) {
            return Ok(k);
        }
        let k = self.made.count();
        // No `map_err` and `?`: its proof does not close, since what is said of the list is lost behind the closure.
        match self.made.push(ends) {
            Ok(()) => Ok(k),
            Err(_) => Err(refused(Refusal::HostFull)),
        }
    }
}
