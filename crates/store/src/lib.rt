// Terms, nodes and symbols as tables, the rules that such tables keep, and the one fault type of the project.
#![tactic(auto)]

mod fault;
mod fixed;
mod rules;
mod span;
mod store;
mod term;

pub use fault::{Culprit, Fault, Layer, Refusal};
pub use fixed::{Fixed, Full};
pub use span::{Span, cut, lookup};
pub use store::Store;
pub use term::{ENode, HasVar, Term, TermKind};
