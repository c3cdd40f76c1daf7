// The board: two gates, one port, one output stage. Its rules: docs/BOARD.md.
#![tactic(auto)]

pub mod board;
pub mod collect;
pub mod command;
mod port;
pub mod refusal;
pub mod slip;
mod table;
