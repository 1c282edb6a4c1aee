//! Where an expression is left: behind its value, or at the test position of a decision.

ghost use Rattle.std.specs.Prelude.{◌≡◌, IfOk, OnOk};
ghost use Rattle.c_walk.specs.Items.{both};
ghost use Rattle.c_walk.specs.ItemView.{outcomes_shape};
ghost use Rattle.flow_walks.specs.Comes.{evaluated};
ghost use Rattle.flow_rows.specs.Laying.{Grown, LaidAt, LedAt, ways, yes_of, no_of};
ghost use Rattle.flow_rows.specs.View.{rows_of};

use crate::rows::Rows;
use crate::targets::To;
use c_base::place::NoMemory;
use c_walk::items::Outcomes;
use flow_walks::action::Action;

/// The row at which it is left.
pub fn leave(rows: &mut Rows, to: To) -> Result<u32, NoMemory>
    ensures grown { OnOk result (Grown (rows_of rows.old) (rows_of rows.new)) }
    ensures led { IfOk result (λ r. LedAt (rows_of rows.new) r (λ k. evaluated both (ways k to))) }
{
    match to {
        To::Value(row) => Ok(row),
        To::Test(decision, yes, no) => {
            let at = rows.hole()?;
            decide(rows, decision, at, yes, no)?;
            Ok(at)
        }
    }
}

// Either outcome of a decision.
fn decide(rows: &mut Rows, decision: u16, at: u32, yes: u32, no: u32) -> Result<(), NoMemory>
    ensures grown { OnOk result (Grown (rows_of rows.old) (rows_of rows.new)) }
    ensures laid { OnOk result (LaidAt (rows_of rows.new) at (λ k. evaluated both (ways k (To.Test decision yes no)))) }
{
    let first = rows.row(Action::Test(decision, 1), yes)?;
    let second = rows.row(Action::Test(decision, 2), no)?;
    rows.fork(at, first, second)?;
    Ok(())
}

/// It is left at that row, with one of these outcomes.
pub fn leave_with(rows: &mut Rows, outcomes: &Outcomes, at: u32, to: To) -> Result<(), NoMemory>
    ensures grown { OnOk result (Grown (rows_of rows.old) (rows_of rows.new)) }
    ensures laid { OnOk result (LaidAt (rows_of rows.new) at (λ k. evaluated (outcomes_shape outcomes.now) (ways k to))) }
{
    match to {
        To::Value(row) => {
            rows.fill(at, Action::Nothing, row)?;
            Ok(())
        }
        To::Test(decision, yes, no) => match outcomes {
            Outcomes::OnlyTrue => {
                rows.fill(at, Action::Test(decision, 1), yes)?;
                Ok(())
            }
            Outcomes::OnlyFalse => {
                rows.fill(at, Action::Test(decision, 2), no)?;
                Ok(())
            }
            Outcomes::Both => {
                decide(rows, decision, at, yes, no)?;
                Ok(())
            }
            Outcomes::Cases(_) => {
                decide(rows, decision, at, yes, no)?;
                Ok(())
            }
        },
    }
}

/// The row to which it leads where it is true.
pub fn yes_of(to: To) -> u32
    ensures { result ≡ yes_of to }
{
    match to {
        To::Value(row) => row,
        To::Test(_, yes, _) => yes,
    }
}

/// The row to which it leads where it is false.
pub fn no_of(to: To) -> u32
    ensures { result ≡ no_of to }
{
    match to {
        To::Value(row) => row,
        To::Test(_, _, no) => no,
    }
}
