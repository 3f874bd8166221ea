// What a query answers: the node to rewrite from, and how many nodes are offered to rewrite to.
#[derive(Clone, Copy, PartialEq, Eq, Debug)]
pub struct Offered {
    pub from: usize,
    pub count: usize,
}
