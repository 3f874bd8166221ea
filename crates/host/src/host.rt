// A host, by what it means over a store.
ghost use Rattle.std.specs.Prelude.{◌≡◌};
ghost use Rattle.host.specs.Meaning.{HostMeaning, HostRules, Makes};
ghost use Rattle.std.specs.List.{slice_get};
ghost use Rattle.store.specs.Tables.{Tables, tables};

use crate::allowed::TransEqAllowed;
use request::Pair;
use store::{Fault, Store};

pub trait Host {
    ghost meaning: { Self → Tables → HostMeaning };

    // The live node of a term.
    fn get_enode_imm(&self, store: Store, term: usize) -> Option<usize>
        ensures { result ≡ (meaning self.now (tables store.entry)).live term };

    // Whether one loose class holds both nodes.
    fn check_eq(&self, store: Store, a: usize, b: usize) -> bool
        ensures { result ≡ (meaning self.now (tables store.entry)).loose a b };

    // The ends of a listed equality.
    fn from_to(&self, store: Store, equality: usize) -> Option<Pair>
        ensures { result ≡ slice_get (meaning self.now (tables store.entry)).listed equality };

    // Makes an equality, or finds it made.
    fn new_trans_equality(
        &mut self,
        store: Store,
        ends: Pair,
        allowed: TransEqAllowed,
    ) -> Result<usize, Fault>
        ensures { Makes (tables store.entry) (meaning self.old (tables store.entry)) ends allowed result (meaning self.new (tables store.entry)) };

    // The law that each impl proves.
    ghost rules: { (h : Self) (S : Tables) → HostRules S (meaning h S) };
}
