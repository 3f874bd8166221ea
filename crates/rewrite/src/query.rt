// A query: what a rewriter is asked at a term and a pattern term.
ghost use Rattle.std.specs.Prelude.{◌≡◌};
ghost use Rattle.rewrite.specs.Kinds.{live_ends, same_ends, aside_offer, from_of};
ghost use Rattle.rewrite.specs.Meaning.{meant};

use host::Host;
use request::Pair;
use store::Store;

// Over a host, and with the nodes that were set aside.
#[derive_where(Clone, Copy)]
pub struct Query<'a, H> {
    pub store: Store<'a>,
    pub host: &'a H,
    pub aside: &'a [usize],
    pub blame: usize,
    pub subpat: usize,
}

impl<'a, H: Host> Query<'a, H> {
    // From the live node of the term to that of the pattern term, if both are live.
    pub(crate) fn live_ends(&self) -> Option<Pair>
        ensures { result ≡ live_ends (meant H.Host.meaning self.now) }
    {
        let from = self.host.get_enode_imm(self.store, self.blame)?;
        let to = self.host.get_enode_imm(self.store, self.subpat)?;
        Some(Pair { from, to })
    }

    // The same, if one loose class holds both.
    pub(crate) fn same_ends(&self) -> Option<Pair>
        ensures { result ≡ same_ends (meant H.Host.meaning self.now) }
    {
        let ends = self.live_ends()?;
        let is_same = self.host.check_eq(self.store, ends.from, ends.to);
        is_same.then_some(ends)
    }

    // The live node of the term, if the set-aside nodes are offered from it: some are, and the pattern term is not live.
    pub(crate) fn aside_from(&self) -> Option<usize>
        ensures { result ≡ from_of (aside_offer (meant H.Host.meaning self.now)) }
    {
        let from = self.host.get_enode_imm(self.store, self.blame)?;
        let is_live = self.host.get_enode_imm(self.store, self.subpat).is_some();
        (!is_live && !self.aside.is_empty()).then_some(from)
    }
}
