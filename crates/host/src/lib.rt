// The host of a search: which nodes are live, which are the same, and the equalities made so far.
#![tactic(auto)]

mod allowed;
mod classes;
mod host;
mod table;

pub use allowed::TransEqAllowed;
pub use classes::{ClassLinks, ClassNumbers, Partition};
pub use host::Host;
pub use table::TableHost;
