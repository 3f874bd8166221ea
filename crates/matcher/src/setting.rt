// What a search goes by, from its first step to its last.
ghost use Rattle.std.specs.Prelude.{◌≡◌};
ghost use Rattle.matcher.specs.Settings.{query_at};

use host::Host;
use request::Request;
use rewrite::Query;

// A request, over a host and with the nodes that were set aside.
#[derive_where(Clone, Copy)]
pub struct Setting<'a, H> {
    pub request: Request<'a>,
    pub host: &'a H,
    pub aside: &'a [usize],
}

impl<'a, H: Host> Setting<'a, H> {
    // What a rewriter is asked here, at a term and a pattern term.
    pub(crate) fn query(&self, blame: usize, subpat: usize) -> Query<'a, H>
        ensures { result ≡ query_at self.now blame subpat }
    {
        Query {
            store: self.request.store,
            host: self.host,
            aside: self.aside,
            blame,
            subpat,
        }
    }
}
