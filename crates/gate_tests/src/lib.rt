// Runs of a gate, held to values that tools/gate.py worked out. Its rules: docs/GATE.md.
#![tactic(auto)]

#[cfg(test)]
mod bits;
#[cfg(test)]
mod drive;
#[cfg(test)]
mod edges;
#[cfg(test)]
mod moves;
#[cfg(test)]
mod switches;
