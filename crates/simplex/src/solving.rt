//! The call that solves a program.

ghost use Rattle.std.specs.Prelude.{◌≡◌, ◌≤◌, IfOk, MatchResult};
ghost use Rattle.simplex.specs.Answer.{IsAnswer, IsFault};
ghost use Rattle.simplex.specs.Laws.{AreMinorsSmall};

use crate::answer::{Optimal, answer_of};
use crate::artificial::{drive_out, has_artificial_weight, restart, start};
use crate::columns::{Columns, Part};
use crate::improve::improve;
use crate::state::State;
use fractions::OutOfMemory;
use std::alloc::Global;
use std::marker::Model;

/// Why a program has no optimal weights: no weights meet its rows, or some do and weights that sum to 0 in every row
/// have a positive cost.
#[derive(Clone, Copy, Debug, PartialEq, Eq)]
pub enum LpFault {
    NoSolution,
    Unbounded,
}

/// What `solve` works in, for programs of one number of rows. Contracts see that number.
#[derive(Drop)]
pub struct Workspace {
    state: Box<State>,
}

impl Model for Workspace {
    ghost use Rattle.std.specs.Prelude.{ℕ};

    ghost Value = { ℕ };

    ghost view = { λ workspace. workspace.state.value.rows };
}

impl Workspace {
    /// Makes a workspace for programs of `rows` rows, from 1 to 31.
    pub fn new(alloc: Global, rows: u32) -> Result<Workspace, OutOfMemory>
        requires some { 1 ≤ rows }
        requires few { rows ≤ 31 }
        ensures { IfOk result (λ workspace. workspace ≡ rows) }
    {
        match Box::new(alloc, State::new(rows as usize)) {
            Ok(state) => Ok(Workspace { state }),
            Err(_) => Err(OutOfMemory),
        }
    }
}

/// The best weights of a program, in a state for its number of rows.
fn solve_in<C: Columns>(work: &mut State, columns: &mut C) -> Result<Optimal, LpFault>
    requires { work.old.rows ≡ (C.program columns.old).rows }
    ensures same { C.program columns.new ≡ C.program columns.old }
    ensures same_players { C.players columns.new ≡ C.players columns.old }
    ensures rows { work.new.rows ≡ work.old.rows }
    ensures answer { MatchResult result
        (λ o. IsAnswer (C.program columns.old) o.weights.items o.weight_den o.multipliers.num.items o.multipliers.den)
        (λ fault. IsFault (C.program columns.old) fault) }
{
    start(work, columns);
    let Some(_bounds) = improve(work, columns, Part::First) else {
        unreachable!();
    };
    if has_artificial_weight(work) {
        return Err(LpFault::NoSolution);
    }
    let n = work.rows;
    for k in 0..n {
        drive_out(work, columns, k);
    }
    restart(work, columns);
    let Some(multipliers) = improve(work, columns, Part::Second) else {
        return Err(LpFault::Unbounded);
    };
    Ok(answer_of(work, multipliers))
}

/// Returns the best weights of a program, and multipliers that show that they are best: the weights solve the program,
/// the multipliers bound it, and both have one value.
///
/// Fails with `NoSolution` exactly if nothing solves the program. Fails with `Unbounded` exactly if something does, and
/// a ray, which adds nothing in any row, has a cost above 0.
pub fn solve<C: Columns>(workspace: &mut Workspace, columns: &mut C) -> Result<Optimal, LpFault>
    requires { workspace.old ≡ (C.program columns.old).rows }
    ensures same { C.program columns.new ≡ C.program columns.old }
    ensures same_players { C.players columns.new ≡ C.players columns.old }
    ensures rows { workspace.new ≡ workspace.old }
    ensures minors { AreMinorsSmall (C.program columns.old) }
    ensures answer { MatchResult result
        (λ o. IsAnswer (C.program columns.old) o.weights.items o.weight_den o.multipliers.num.items o.multipliers.den)
        (λ fault. IsFault (C.program columns.old) fault) }
{
    solve_in(&mut workspace.state, columns)
}
