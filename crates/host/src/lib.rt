// The console: its arguments, and the tasks that they ask for. Its page: docs/CONSOLE.md.
#![tactic(auto)]

pub mod book;
pub mod console;
pub mod lot;
pub mod lots;
pub mod makes;
pub mod panel;
pub mod report;
pub mod session;
pub mod tasks;
