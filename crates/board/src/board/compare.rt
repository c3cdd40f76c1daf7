ghost use Rattle.std.specs.Prelude.{◌≡◌, ◌-◌, ◌<◌, true, false, ◌-ℤ◌, Decides, MatchOption, unsigned_abs};
ghost use Rattle.stage.specs.Pairs.{is_gate};
ghost use Rattle.board.specs.Acts.{state_of, gate_of};
ghost use Rattle.board.specs.Isolation.{EachEntryBelongs, IsIsolated, FollowsBook};
ghost use Rattle.board.specs.Compared.{IsComparison};

use crate::board::Board;
use crate::table::Table;
use stage::Stage;

/// How far one gate is alike on two boards.
#[derive(Clone, Copy, PartialEq, Eq, Debug)]
pub struct Comparison {
    /// Whether its records are equal in every field.
    pub same: bool,
    /// By how much its phases A and B, as the stages show them, differ.
    pub apart: (u32, u32),
}

fn phase_distances(a: (i32, i32), b: (i32, i32)) -> (u32, u32)
    ensures first { result.0 ≡ unsigned_abs (a.0 -ℤ b.0) }
    ensures second { result.1 ≡ unsigned_abs (a.1 -ℤ b.1) }
{
    (a.0.abs_diff(b.0), a.1.abs_diff(b.1))
}

fn same_record(a: &Table, b: &Table, axis: u8) -> bool
    requires { axis < 2 }
    ensures { Decides result (gate_of (state_of a.now) axis ≡ gate_of (state_of b.now) axis) }
{
    a.gates[axis as usize].is_same(&b.gates[axis as usize])
}

fn comparison_of<S: Stage + Drop, R: Stage + Drop>(
    a: &Board<S>,
    b: &Board<R>,
    gate: u8,
) -> Comparison
    requires { is_gate gate ≡ true }
    ensures { IsComparison S.Stage a.now R.Stage b.now (gate - 1) result }
{
    let same = same_record(&a.table, &b.table, gate - 1);
    Comparison {
        same,
        apart: phase_distances(a.pair(gate), b.pair(gate)),
    }
}

/// Compares gate 1 or 2 on two boards, over any makes of stage; `None` for another gate. Its contract carries the isolation law
/// (`docs/ISOLATION.md`).
pub fn compare<S: Stage + Drop, R: Stage + Drop>(
    a: &Board<S>,
    b: &Board<R>,
    gate: u8,
) -> Option<Comparison>
    ensures is { MatchOption result
        (is_gate gate ≡ false)
        (λ c. (is_gate gate ≡ true) × IsComparison S.Stage a.now R.Stage b.now (gate - 1) c) }
    ensures isolated { IsIsolated S.Stage a.now R.Stage b.now }
    ensures booked_a { FollowsBook S.Stage a.now }
    ensures booked_b { FollowsBook R.Stage b.now }
    ensures attributed { EachEntryBelongs }
{
    matches!(gate, 1 | 2).then(|| comparison_of(a, b, gate))
}
