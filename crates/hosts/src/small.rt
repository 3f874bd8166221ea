// The small store: terms 0 = a, 1 = b, 2 = f(a), 3 = f(b), 4 = variable 0, 5 = f(term 4), 6 = p(term 5), 7 = p(f(b)), 8 = h(a, a), 9 = h(b, b),
// 10 = h(term 4, term 4), 11 = p(term 10); nodes 0 to 5 are owned by terms 0, 1, 2, 3, 8, 9.
use store::{ENode, HasVar, Span, Store, Term, TermKind};

static CELLS: [usize; 12] = [0, 1, 4, 5, 3, 0, 0, 1, 1, 4, 4, 10];

static SYMBOLS: [Span; 5] = [
    Span { offset: 0, len: 1 },
    Span { offset: 1, len: 1 },
    Span { offset: 2, len: 1 },
    Span { offset: 3, len: 1 },
    Span { offset: 4, len: 1 },
];

static NAMES: [u8; 5] = [b'a', b'b', b'f', b'p', b'h'];

const A: TermKind = TermKind::App(0);

const B: TermKind = TermKind::App(1);

const F: TermKind = TermKind::App(2);

const P: TermKind = TermKind::App(3);

const H: TermKind = TermKind::App(4);

fn term(kind: TermKind, has_var: HasVar, offset: usize, len: usize) -> Term {
    Term {
        kind,
        has_var,
        child_ids: Span { offset, len },
    }
}

pub fn terms() -> [Term; 12] {
    [
        term(A, HasVar::No, 0, 0),
        term(B, HasVar::No, 0, 0),
        term(F, HasVar::No, 0, 1),
        term(F, HasVar::No, 1, 1),
        term(TermKind::Var(0), HasVar::Yes, 2, 0),
        term(F, HasVar::Yes, 2, 1),
        term(P, HasVar::Yes, 3, 1),
        term(P, HasVar::No, 4, 1),
        term(H, HasVar::No, 5, 2),
        term(H, HasVar::No, 7, 2),
        term(H, HasVar::Yes, 9, 2),
        term(P, HasVar::Yes, 11, 1),
    ]
}

pub fn node(owner: usize) -> ENode {
    ENode { owner }
}

pub fn nodes() -> [ENode; 6] {
    [node(0), node(1), node(2), node(3), node(8), node(9)]
}

pub fn store_of<'a>(terms: &'a [Term], nodes: &'a [ENode]) -> Store<'a> {
    Store {
        terms,
        nodes,
        cells: &CELLS,
        symbols: &SYMBOLS,
        names: &NAMES,
    }
}
