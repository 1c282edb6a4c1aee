//! The rows for marks.

ghost use Rattle.std.specs.Prelude.{◌≡◌, ◌++◌, ◌∷◌, [], map, IfOk, OnOk};
ghost use Rattle.flow_rows.specs.View.{met_of};
ghost use Rattle.flow_graph.specs.Graphs.{action_of, call_of};
ghost use Rattle.flow_graph.specs.Flow.{flow_row};

use c_base::place::NoMemory;
use flow_marks::flow::FlowRow;
use flow_rows::row::{GraphRow, Step};
use flow_walks::action::Action;
use std::alloc::Global;

/// The action that is met; Nothing too where a function is called and where the body has been left.
#[tactic(auto, using(crate::proofs::Flowing::action_met))]
pub fn action_of(met: Step) -> Action
    ensures { result ≡ action_of (met_of met) }
{
    match met {
        Step::Act(action) => action,
        Step::Enter(_) => Action::Nothing,
        Step::Leave => Action::Nothing,
    }
}

/// The number of the function that is called, if one is.
#[tactic(auto, using(crate::proofs::Flowing::call_met))]
pub fn call_of(met: Step) -> Option<u32>
    ensures { result ≡ call_of (met_of met) }
{
    match met {
        Step::Act(_) => None,
        Step::Enter(function) => Some(function),
        Step::Leave => None,
    }
}

fn flow_row(row: GraphRow) -> FlowRow
    ensures { result ≡ flow_row row }
{
    FlowRow {
        action: action_of(row.met),
        next: row.next,
    }
}

fn push(flow: &mut Vec<FlowRow>, row: FlowRow) -> Result<(), NoMemory>
    ensures { OnOk result (flow.new.items ≡ flow.old.items ++ row ∷ []) }
{
    flow.push(row)?;
    Ok(())
}

/// These rows, in their order.
#[tactic(auto, using(crate::proofs::Flowing::begin_flow, crate::proofs::Flowing::next_flow))]
pub fn rows_for_marks(alloc: Global, rows: Vec<GraphRow>) -> Result<Vec<FlowRow>, NoMemory>
    ensures { IfOk result (λ flow. flow.items ≡ map flow_row rows.items) }
{
    let mut rest = rows;
    rest.reverse();
    let mut flow = Vec::new(alloc);
    while let Some(row) = rest.pop() {
        push(&mut flow, flow_row(row))?;
    }
    Ok(flow)
}
