// The search from a term to a part of the pattern, what it means and what it achieves.
#![tactic(auto)]

ghost use Rattle.matcher.specs.Cases.{EightCases};

mod exact;
mod level;
mod machine;
mod place;
mod setting;

pub use machine::{Pairs, PatternMatcher};
pub use setting::Setting;

// The eight worked cases, as one set.
pub fn worked_cases()
    ensures { EightCases }
{}
