//! Functions (C89, 3.7.1): their parameters, and their body, which is a block.

ghost use Rattle.std.specs.Prelude.{◌≡◌, [], ℕ, OnOk, IfOk};
ghost use Rattle.c_syntax.specs.View.{decl_form_shape, compound_shape, external_shape};
ghost use Rattle.c_tables.specs.Tables.{tables_shape};
ghost use Rattle.c_walk.specs.Walked.{Walked};
ghost use Rattle.c_walk.specs.Units.{walk_function, walk_external};
ghost use Rattle.flow_walks.specs.Walks.{function_goes};
ghost use Rattle.flow_rows.specs.Counts.{counts};
ghost use Rattle.flow_rows.specs.Laying.{Placed, exits};
ghost use Rattle.flow_rows.specs.View.{rows_of};
ghost use Rattle.flow_graph.specs.Graphs.{IsGraph, IsLaid};
ghost use Rattle.flow_graph.specs.Bodies.{block_goes, walk_block, whole_goes, walk_whole, Framed};

use crate::counting::count_decl;
use crate::graphs::Graph;
use crate::parameters::lay_parameters;
use c_base::place::NoMemory;
use c_syntax::tree::{Compound, DeclForm, External};
use c_tables::tables::Tables;
use flow_rows::layer::Layer;
use flow_rows::numbers::Numbers;
use flow_rows::rows::Rows;
use flow_rows::statements::lay_compound;
use flow_rows::targets::Targets;
use flow_walks::action::Action;
use std::alloc::Global;

// The rows around a function: at the first one it begins; the second one leads to itself, behind which nothing comes; and at the last one
// the body has been left.
#[derive(Clone, Copy, Drop)]
struct Frame {
    start: u32,
    stop: u32,
    last: u32,
}

fn lay_frame(rows: &mut Rows) -> Result<Frame, NoMemory>
    requires { rows_of rows.old ≡ [] }
    ensures { IfOk result (λ f. Framed (rows_of rows.new) f.start f.stop f.last) }
{
    rows.hole()?;
    let start = rows.hole()?;
    rows.start(start)?;
    let stop = rows.hole()?;
    rows.fill(stop, Action::Nothing, stop)?;
    let last = rows.leave(stop)?;
    Ok(Frame { start, stop, last })
}

// A body, which is a block.
fn lay_block(
    out: &mut Layer,
    tables: &Tables,
    body: &Compound,
    at: u32,
    to: Targets,
) -> Result<(), NoMemory>
    ensures { OnOk result (Placed (rows_of out.old.rows) (rows_of out.new.rows) out.old.numbers out.new.numbers at (λ c w k. block_goes (tables_shape tables.now) c (compound_shape body.now) w (exits k to)) (λ c w. walk_block (tables_shape tables.now) c (compound_shape body.now) w)) }
{
    let number = out.numbers.next_block()?;
    let inner = out.rows.hole()?;
    out.rows.fill(at, Action::Block(number), inner)?;
    out.numbers.block()?;
    lay_compound(out, tables, body, inner, to)?;
    Ok(())
}

// Parameters, and then a body.
fn lay_whole(
    out: &mut Layer,
    tables: &Tables,
    form: &DeclForm,
    body: &Compound,
    at: u32,
    to: Targets,
) -> Result<(), NoMemory>
    ensures { OnOk result (Placed (rows_of out.old.rows) (rows_of out.new.rows) out.old.numbers out.new.numbers at (λ c w k. whole_goes (tables_shape tables.now) c (decl_form_shape form.now) (compound_shape body.now) w (exits k to)) (λ c w. walk_whole (tables_shape tables.now) c (decl_form_shape form.now) (compound_shape body.now) w)) }
{
    let inner = out.rows.hole()?;
    lay_parameters(out, form, at, inner)?;
    lay_block(out, tables, body, inner, to)?;
    Ok(())
}

// The graph of a function. A `break` or `continue` stands in a loop or a switch, so nothing comes behind one outside of these.
fn lay_function(
    alloc: Global,
    tables: &Tables,
    form: &DeclForm,
    body: &Compound,
    numbers: &mut Numbers,
) -> Result<Graph, NoMemory>
    ensures counted { OnOk result ((f : ℕ) (w : Walked) → counts w ≡ numbers.old → counts (walk_function (tables_shape tables.now) f (decl_form_shape form.now) (compound_shape body.now) w) ≡ numbers.new) }
    ensures graph { IfOk result (λ g. (f : ℕ) (w : Walked) → counts w ≡ numbers.old → IsGraph (function_goes (tables_shape tables.now) f (decl_form_shape form.now) (compound_shape body.now) w) g) }
{
    let mut rows = Rows::new(alloc);
    let frame = lay_frame(&mut rows)?;
    let mut out = Layer {
        rows,
        numbers: *numbers,
    };
    let to = Targets {
        next: frame.last,
        broken: frame.stop,
        continued: frame.stop,
        returned: frame.last,
    };
    lay_whole(&mut out, tables, form, body, frame.start, to)?;
    *numbers = out.numbers;
    let laid = out.rows.into_rows();
    let graph = Graph::from_rows(laid, frame.last)?;
    Ok(graph)
}

/// Lays one external declaration behind those that were numbered before: its graph, if it is a function's definition. The
/// variables and definitions of any other declaration are numbered. After an error the numbers are some others.
pub fn lay_external(
    alloc: Global,
    tables: &Tables,
    external: &External,
    numbers: &mut Numbers,
) -> Result<Option<Graph>, NoMemory>
    ensures counted { OnOk result ((w : Walked) → counts w ≡ numbers.old → counts (walk_external (tables_shape tables.now) (external_shape external.now) w) ≡ numbers.new) }
    ensures graph { IfOk result (λ g. IsLaid (tables_shape tables.now) (external_shape external.now) numbers.old g) }
{
    match external {
        External::Function(_, name, _, body) => {
            let graph = lay_function(alloc, tables, &name.form, body, numbers)?;
            Ok(Some(graph))
        }
        External::Plain(decl) => {
            count_decl(numbers, decl)?;
            Ok(None)
        }
    }
}
