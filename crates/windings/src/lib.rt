// A trial of a motor's windings: one gate is stepped through a turn, over two output stages. Its rules: docs/WINDINGS.md.
#![tactic(auto)]

pub mod rig;
pub mod row;
pub mod settings;
