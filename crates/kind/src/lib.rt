// The rewriters of a round, chosen by their kind.
#![tactic(auto)]

mod kind;
mod rewriter;

pub use kind::{AnyEq, Kind, NotAKind};
