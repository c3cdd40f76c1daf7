// One gate: its record, and everything that a command or a cycle does to it. Its rules: docs/GATE.md.
#![tactic(auto)]

pub mod clock;
pub mod cycle;
pub mod events;
pub mod gate;
pub mod inputs;
pub mod load;
pub mod orders;
pub mod profile;
pub mod queries;
