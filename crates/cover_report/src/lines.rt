//! The text of an item, as it stands in lists and reports.

ghost use Rattle.std.specs.Prelude.{◌≡◌, ◌++◌, ◌<◌, length, string_bytes, OnOk};
ghost use Rattle.cover_report.specs.ItemTexts.{block_item, label_text, outcome_item, name_of, pair_text, c_use_item, p_use_item};

use atac_base::items::Items;
use atac_base::rows::{OutcomeRow, PUseRow, PairRow};
use c_base::labels::OutcomeLabel;
use c_base::place::Pos;
use std::alloc::AllocError;
use std::fmt::Write;

/// Appends a block.
pub fn put_block(text: &mut String, k: u32, pos: Pos) -> Result<(), AllocError>
    ensures { OnOk result (string_bytes text.new ≡ string_bytes text.old ++ block_item k pos) }
{
    let line = pos.line;
    let col = pos.col;
    write!(text, "block {k} {line}:{col}")
}

fn put_label(text: &mut String, label: OutcomeLabel) -> Result<(), AllocError>
    ensures { OnOk result (string_bytes text.new ≡ string_bytes text.old ++ label_text label) }
{
    match label {
        OutcomeLabel::True => write!(text, "true"),
        OutcomeLabel::False => write!(text, "false"),
        OutcomeLabel::Case(value) => write!(text, "case {value}"),
        OutcomeLabel::Rest => write!(text, "rest"),
    }
}

/// Appends an outcome of a decision.
pub fn put_outcome(text: &mut String, row: OutcomeRow) -> Result<(), AllocError>
    ensures { OnOk result (string_bytes text.new ≡ string_bytes text.old ++ outcome_item row) }
{
    let decision = row.decision;
    let line = row.pos.line;
    let col = row.pos.col;
    write!(text, "decision {decision} {line}:{col} ")?;
    put_label(text, row.label)
}

fn put_pair(text: &mut String, name: &str, row: PairRow) -> Result<(), AllocError>
    ensures { OnOk result (string_bytes text.new ≡ string_bytes text.old ++ pair_text name.now row) }
{
    let def = row.def;
    let line = row.def_pos.line;
    let col = row.def_pos.col;
    write!(text, "{name} d{def} {line}:{col} ")?;
    let user = row.user;
    let line = row.use_pos.line;
    let col = row.use_pos.col;
    write!(text, "u{user} {line}:{col}")
}

/// Appends a c-use of these items.
pub fn put_c_use(text: &mut String, items: &Items, row: PairRow) -> Result<(), AllocError>
    requires { row.name < length items.now.names }
    ensures { OnOk result (string_bytes text.new ≡ string_bytes text.old ++ c_use_item items.now.names row) }
{
    write!(text, "c-use ")?;
    put_pair(text, items.name(row.name), row)
}

/// Appends a p-use of these items.
pub fn put_p_use(text: &mut String, items: &Items, row: PUseRow) -> Result<(), AllocError>
    requires { row.pair.name < length items.now.names }
    ensures { OnOk result (string_bytes text.new ≡ string_bytes text.old ++ p_use_item items.now.names row) }
{
    write!(text, "p-use ")?;
    put_pair(text, items.name(row.pair.name), row.pair)?;
    write!(text, " ")?;
    put_label(text, row.label)
}
