// A board at its host's desk, with the service slips that the host keeps for it. What it promises: docs/PROOFS.md.
#![tactic(auto)]

pub mod desk;
pub mod side;
