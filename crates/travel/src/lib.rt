// A journey: one gate sent from rest at 0 to a destination, cycle by cycle. Its rules: docs/CONSOLE.md.
#![tactic(auto)]

pub mod journey;
pub mod plan;
pub mod row;
