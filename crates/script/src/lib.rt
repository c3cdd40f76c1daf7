// The script language of the console: its lines, what they send to a board, and what they answer. Its rules: docs/SCRIPT.md.
#![tactic(auto)]

pub mod boards;
pub mod fault;
pub mod line;
pub mod log;
pub mod mnemonic;
pub mod number;
pub mod packet;
pub mod play;
pub mod reply;
