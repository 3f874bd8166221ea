// What the search keeps of a place while its children are matched.
use rewrite::Offered;

// The offers of a query: the mark just after it, what was offered, and how many are tried.
#[derive(Clone, Copy)]
pub(crate) struct Trying {
    pub after: usize,
    pub offered: Offered,
    pub tried: usize,
}

#[derive(Clone, Copy, Default)]
pub(crate) struct Level {
    // the term and the pattern term
    pub blame: usize,
    pub subpat: usize,
    // whose children are matched now, and the next of them
    pub term: usize,
    pub child: usize,
    // the mark before the query
    pub before: usize,
    // the offers, once it has asked; none while the children of the term itself are matched
    pub phase: Option<Trying>,
    // how many pairs lay there when it began
    pub start: usize,
}

// What the machine does next: enter a place, or go on after one that was reached or missed.
#[derive(Clone, Copy)]
pub(crate) enum Mode {
    Down { blame: usize, subpat: usize },
    Hit,
    Miss,
}

// What kind of place a pattern term is, unless it is a variable that is not bound: a place where some term is matched whole, or an application.
#[derive(Clone, Copy)]
pub(crate) enum Place {
    Whole(usize),
    Opened,
}

// An offer that is taken: its node, and the term that owns it.
#[derive(Clone, Copy)]
pub(crate) struct Taken {
    pub node: usize,
    pub term: usize,
}
