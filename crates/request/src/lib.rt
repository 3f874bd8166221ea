// A request: a store, a pattern with its bindings, and the logged entries; its parts and places, and its check.
#![tactic(auto)]

mod check;
mod kinds;
mod places;
mod request;

pub use kinds::{ENodeIdx, LogEntry, MatchKind, Pair, TermIdx};
pub use places::Places;
pub use request::Request;
