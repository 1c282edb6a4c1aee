//! The flow graph of a function.

ghost use Rattle.std.specs.Prelude.{◌≡◌, ◌<◌, ◌^◌, ◌↔◌, ℕ, List, length, map, Contains, IfOk};
ghost use Rattle.flow_walks.specs.declared.action.Action.{Action as an_action};
ghost use Rattle.flow_rows.specs.Laying.{IsWithin};
ghost use Rattle.flow_rows.specs.View.{row_of};
ghost use Rattle.flow_marks.specs.Paths.{IsStep, Spells};
ghost use Rattle.flow_graph.specs.Graphs.{flow_graph, action_at, call_at, next_at};
ghost use Rattle.flow_graph.specs.Flow.{SpellsActions};

use crate::flow::{action_of, call_of, rows_for_marks};
use c_base::place::NoMemory;
use flow_marks::flow::FlowRow;
use flow_rows::row::GraphRow;
use flow_walks::action::Action;
use std::alloc::Global;
use std::marker::Model;

/// The flow graph of a function's definition: rows, each with what is met at it and the rows that may come next. They are
/// numbered from 0, there are fewer than 2^32, and each path begins at row 0.
#[derive(Drop)]
pub struct Graph {
    rows: Vec<GraphRow>,
    last: u32,
}

impl Model for Graph {
    ghost use Rattle.std.specs.Prelude.{map};
    ghost use Rattle.flow_rows.specs.View.{row_of};
    ghost use Rattle.flow_graph.specs.Graphs.{FlowGraph, flow_graph, HasRows};

    ghost Value = { FlowGraph };

    ghost view = { λ g. flow_graph (map row_of g.rows.items) g.last };

    ghost invariant = { λ g. HasRows (flow_graph (map row_of g.rows.items) g.last) };
}

impl Graph {
    /// The graph of these rows, at the last of which the body has been left.
    pub fn from_rows(rows: Vec<GraphRow>, last: u32) -> Result<Graph, NoMemory>
        requires within { IsWithin (map row_of rows.items) }
        requires last { last < length (map row_of rows.items) }
        ensures { IfOk result (λ g. g ≡ flow_graph (map row_of rows.items) last) }
    {
        let size = u32::try_from(rows.len());
        if size.is_err() {
            return Err(NoMemory);
        }
        Ok(Graph { rows, last })
    }

    /// How many rows there are, at least 1.
    pub fn len(&self) -> u32
        ensures len { result ≡ length self.now.rows }
        ensures some { 0 < result }
    {
        self.rows.len() as u32
    }

    /// The action at a row; Nothing too where a function is called and where the body has been left.
    pub fn action(&self, row: u32) -> Action
        requires { row < length self.now.rows }
        ensures { result ≡ action_at self.now row }
    {
        let it = &self.rows[row as usize];
        action_of(it.met)
    }

    /// The rows that may come next.
    pub fn next(&self, row: u32) -> &[u32]
        requires { row < length self.now.rows }
        ensures next { result.now ≡ next_at self.now row }
        ensures within { (to : ℕ) → Contains result.now to → to < length self.now.rows }
    {
        let it = &self.rows[row as usize];
        &it.next
    }

    /// The number of the function that is called at a row, which has a body; None at any other row.
    pub fn call(&self, row: u32) -> Option<u32>
        requires { row < length self.now.rows }
        ensures { result ≡ call_at self.now row }
    {
        let it = &self.rows[row as usize];
        call_of(it.met)
    }

    /// The row at which the body has been left.
    pub fn last(&self) -> u32
        ensures last { result ≡ self.now.last }
        ensures within { result < length self.now.rows }
    {
        self.last
    }

    /// The rows for marks, in their order; at calls and where the body has been left nothing is met there.
    pub fn into_flow(self, alloc: Global) -> Result<Vec<FlowRow>, NoMemory>
        ensures some { IfOk result (λ flow. 0 < length flow.items) }
        ensures few { IfOk result (λ flow. length flow.items < 2 ^ 32) }
        ensures in_range { IfOk result (λ flow. (row to : ℕ) → IsStep flow.items row to → to < length flow.items) }
        ensures walks { IfOk result (λ flow. (v : List an_action) → Spells flow.items 0 v ↔ SpellsActions self.rows v) }
    {
        let rows = self.rows;
        let flow = rows_for_marks(alloc, rows)?;
        Ok(flow)
    }
}
