// A ring of records over memory that is lent to it, with readers that stand at places of their own. Its rules: docs/EVENTS.md.
#![tactic(auto)]

pub mod ring;
