//! The rows by which a switch chooses a case or its default.

ghost use Rattle.std.specs.Prelude.{◌≡◌, ◌+◌, [], ◌∷◌, map, IfOk, OnOk};
ghost use Rattle.c_syntax.specs.View.{label_shape};
ghost use Rattle.c_walk.specs.Stating.{case_count, has_default};
ghost use Rattle.flow_walks.specs.Statements.{cases_go};
ghost use Rattle.flow_walks.specs.declared.action.Action.TheVariants as action;
ghost use Rattle.flow_walks.specs.Comes.{act, emit, either, choice};
ghost use Rattle.flow_rows.specs.Laying.{Grown, LaidAt, LedAt};
ghost use Rattle.flow_rows.specs.View.{rows_of};

use crate::rows::Rows;
use c_base::place::NoMemory;
use c_syntax::tree::Label;
use flow_walks::action::Action;

/// The case of that number: from the row `at` it leads to its statement, or to the row that is answered, where it is another.
pub fn lay_case(
    rows: &mut Rows,
    decision: u16,
    order: u32,
    entry: u32,
    at: u32,
) -> Result<u32, NoMemory>
    ensures grown { OnOk result (Grown (rows_of rows.old) (rows_of rows.new)) }
    ensures laid { IfOk result (λ r. LaidAt (rows_of rows.new) at (λ k. either (emit (act (action.Test decision order)) (k entry)) (k r))) }
{
    let other = rows.hole()?;
    let chosen = rows.row(Action::Test(decision, order), entry)?;
    rows.fork(at, chosen, other)?;
    Ok(other)
}

/// The default, if it is one: the row `at` leads to its statement; else the default is sought at the row that is answered.
pub fn lay_default(rows: &mut Rows, default: bool, entry: u32, at: u32) -> Result<u32, NoMemory>
    ensures grown { OnOk result (Grown (rows_of rows.old) (rows_of rows.new)) }
    ensures led { IfOk result (λ r. LedAt (rows_of rows.new) at (λ k. choice default (k entry) (k r))) }
{
    if default {
        let behind = rows.hole()?;
        rows.fill(at, Action::Nothing, entry)?;
        Ok(behind)
    } else {
        Ok(at)
    }
}

/// What stands behind some cases: the row at which another one is chosen, and its number.
#[derive(Clone, Copy, Drop)]
pub struct Others {
    pub at: u32,
    pub order: u32,
}

/// The case, if this label is one.
pub fn lay_label(
    rows: &mut Rows,
    decision: u16,
    label: &Label,
    entry: u32,
    from: Others,
) -> Result<Others, NoMemory>
    ensures grown { OnOk result (Grown (rows_of rows.old) (rows_of rows.new)) }
    ensures led { IfOk result (λ r. LedAt (rows_of rows.new) from.at (λ k. cases_go decision from.order (label_shape label.now ∷ []) (k entry) (k r.at))) }
    ensures order { IfOk result (λ r. r.order ≡ from.order + case_count (label_shape label.now ∷ [])) }
{
    match label {
        Label::Case(_, _) => {
            let Some(order) = from.order.checked_add(1) else {
                return Err(NoMemory);
            };
            let at = lay_case(rows, decision, from.order, entry, from.at)?;
            Ok(Others { at, order })
        }
        Label::Default(_) => Ok(from),
    }
}

// The cases among the labels of one statement.
fn lay_labels(
    rows: &mut Rows,
    decision: u16,
    labels: &[Label],
    entry: u32,
    from: Others,
) -> Result<Others, NoMemory>
    ensures grown { OnOk result (Grown (rows_of rows.old) (rows_of rows.new)) }
    ensures led { IfOk result (λ r. LedAt (rows_of rows.new) from.at (λ k. cases_go decision from.order (map label_shape labels.now) (k entry) (k r.at))) }
    ensures order { IfOk result (λ r. r.order ≡ from.order + case_count (map label_shape labels.now)) }
{
    let mut others = from;
    for label in labels {
        let next = lay_label(rows, decision, label, entry, others)?;
        others = next;
    }
    Ok(others)
}

// Whether one of these labels is a default.
fn has_default(labels: &[Label]) -> bool
    ensures { result ≡ has_default (map label_shape labels.now) }
{
    for label in labels {
        if let Label::Default(_) = label {
            return true;
        }
    }
    false
}

/// What stands behind some statements of a switch: where another case is chosen, and the row at which the default is
/// sought.
#[derive(Clone, Copy, Drop)]
pub struct Choices {
    pub cases: Others,
    pub default: u32,
}

/// In front of all statements of a switch: the first case is chosen from the row `at`, and the default sought from the
/// row `start`.
pub fn first_choices(rows: &mut Rows, at: u32, start: u32) -> Result<Choices, NoMemory>
    ensures grown { OnOk result (Grown (rows_of rows.old) (rows_of rows.new)) }
    ensures cases { IfOk result (λ r. LaidAt (rows_of rows.new) at (λ k. k r.cases.at)) }
    ensures default { IfOk result (λ r. LaidAt (rows_of rows.new) start (λ k. k r.default)) }
    ensures order { IfOk result (λ r. r.cases.order ≡ 1) }
{
    let first = rows.hole()?;
    let default = rows.hole()?;
    rows.fill(at, Action::Nothing, first)?;
    rows.fill(start, Action::Nothing, default)?;
    let cases = Others {
        at: first,
        order: 1,
    };
    Ok(Choices { cases, default })
}

/// The labels of one statement, which is laid at the row `entry`.
pub fn next_choices(
    rows: &mut Rows,
    decision: u16,
    labels: &[Label],
    entry: u32,
    from: Choices,
) -> Result<Choices, NoMemory>
    ensures grown { OnOk result (Grown (rows_of rows.old) (rows_of rows.new)) }
    ensures cases { IfOk result (λ r. LedAt (rows_of rows.new) from.cases.at (λ k. cases_go decision from.cases.order (map label_shape labels.now) (k entry) (k r.cases.at))) }
    ensures default { IfOk result (λ r. LedAt (rows_of rows.new) from.default (λ k. choice (has_default (map label_shape labels.now)) (k entry) (k r.default))) }
    ensures order { IfOk result (λ r. r.cases.order ≡ from.cases.order + case_count (map label_shape labels.now)) }
{
    let cases = lay_labels(rows, decision, labels, entry, from.cases)?;
    let default = lay_default(rows, has_default(labels), entry, from.default)?;
    Ok(Choices { cases, default })
}

/// Behind all statements of a switch: where no case is chosen the default is sought from the row `start`; where there is
/// none, and behind the last statement, it goes on at the row `next`.
pub fn last_choices(
    rows: &mut Rows,
    decision: u16,
    from: Choices,
    start: u32,
    entry: u32,
    next: u32,
) -> Result<(), NoMemory>
    ensures grown { OnOk result (Grown (rows_of rows.old) (rows_of rows.new)) }
    ensures cases { OnOk result (LaidAt (rows_of rows.new) from.cases.at (λ k. emit (act (action.Test decision from.cases.order)) (k start))) }
    ensures default { OnOk result (LaidAt (rows_of rows.new) from.default (λ k. k next)) }
    ensures behind { OnOk result (LaidAt (rows_of rows.new) entry (λ k. k next)) }
{
    rows.fill(
        from.cases.at,
        Action::Test(decision, from.cases.order),
        start,
    )?;
    rows.fill(from.default, Action::Nothing, next)?;
    rows.fill(entry, Action::Nothing, next)?;
    Ok(())
}
