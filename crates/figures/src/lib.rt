// Worked figures, proved together. They stand in docs/PROOFS.md.
#![tactic(auto)]

ghost use Rattle.std.specs.Prelude.{◌≡◌, length};
ghost use Rattle.figures.specs.Figures.{AllHold, figures};

/// How many rows of worked figures hold: all of them.
pub fn rows() -> u8
    ensures hold { AllHold figures }
    ensures count { result ≡ length figures }
{
    14
}
