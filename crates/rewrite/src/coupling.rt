// How closely a link follows what was logged.
#[derive(Clone, Copy, PartialEq, Eq, Debug)]
pub enum Coupling {
    // the logged pairs, each used once, in their order
    Exact,
    // the logged pairs, some turned round, used again or in another order
    SwappedEqs,
    // some pairs that were not logged for this entry, though the host knows them
    MissingEqs,
    // some pairs that the host did not know
    AddedEqs,
}
