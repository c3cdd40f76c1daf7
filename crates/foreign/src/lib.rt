// A make of stage from outside the crate `stage`, as a user of the board may bring one, and boards over it. Its rules: docs/STAGES.md.
#![tactic(auto)]

pub mod plate;
#[cfg(test)]
mod tests;
