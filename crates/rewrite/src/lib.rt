// The rewriters: what each offers at a query, when it is finished, and how it goes back.
#![tactic(auto)]

mod basic;
mod complex;
mod coupling;
mod custom;
mod force;
mod offered;
mod query;
mod rewriter;
mod turn;
mod ways;

pub use basic::BasicEq;
pub use complex::ComplexEq;
pub use coupling::Coupling;
pub use custom::CustomEq;
pub use force::ForceEq;
pub use offered::Offered;
pub use query::Query;
pub use rewriter::EqRewriter;
