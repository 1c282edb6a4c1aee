//! One item of each kind.

ghost use Rattle.std.specs.Prelude.{◌<◌, length, OnOk};
ghost use Rattle.atac_facts.specs.Sets.{holds};
ghost use Rattle.serde_json.specs.Events.{SendsValue};
ghost use Rattle.json_out.specs.Json.{block_json, outcome_json, c_use_json, p_use_json};

use crate::members::{put_covered, put_name, put_number, put_outcome, put_site};
use atac_base::items::Items;
use atac_base::rows::{OutcomeRow, PUseRow, PairRow};
use atac_facts::fact::Fact;
use atac_facts::facts::Facts;
use c_base::place::Pos;
use serde::Serializer;
use std::alloc::Global;

/// Items, and the facts that cover them.
#[derive(Clone, Copy)]
pub struct Covered<'a> {
    pub alloc: Global,
    pub items: &'a Items,
    pub facts: &'a Facts,
}

/// Block `number`.
pub fn send_block<S: Serializer>(
    covered: Covered<'_>,
    out: &mut S,
    number: u16,
    pos: Pos,
) -> Result<(), S::Error>
    ensures { OnOk result (SendsValue (block_json (holds covered.entry.facts.now) number pos) (S.written out.old) (S.written out.new)) }
{
    out.begin_map(Some(4))?;
    put_number(out, "col", pos.col)?;
    put_covered(out, covered.facts, Fact::Block(number))?;
    put_number(out, "line", pos.line)?;
    put_number(out, "number", number as u32)?;
    out.end_map()?;
    Ok(())
}

pub fn send_outcome<S: Serializer>(
    covered: Covered<'_>,
    out: &mut S,
    row: OutcomeRow,
) -> Result<(), S::Error>
    ensures { OnOk result (SendsValue (outcome_json (holds covered.entry.facts.now) row) (S.written out.old) (S.written out.new)) }
{
    out.begin_map(Some(5))?;
    put_number(out, "col", row.pos.col)?;
    put_covered(out, covered.facts, Fact::Outcome(row.decision, row.outcome))?;
    put_number(out, "line", row.pos.line)?;
    put_number(out, "number", row.decision as u32)?;
    put_outcome(covered.alloc, out, row.label)?;
    out.end_map()?;
    Ok(())
}

pub fn send_c_use<S: Serializer>(
    covered: Covered<'_>,
    out: &mut S,
    row: PairRow,
) -> Result<(), S::Error>
    requires { row.name < length covered.items.now.names }
    ensures { OnOk result (SendsValue (c_use_json (holds covered.entry.facts.now) covered.entry.items.now.names row) (S.written out.old) (S.written out.new)) }
{
    out.begin_map(Some(4))?;
    put_covered(out, covered.facts, Fact::Pair(row.def, row.user))?;
    put_site(out, "def", row.def, row.def_pos)?;
    put_name(out, covered.items, row.name)?;
    put_site(out, "use", row.user, row.use_pos)?;
    out.end_map()?;
    Ok(())
}

pub fn send_p_use<S: Serializer>(
    covered: Covered<'_>,
    out: &mut S,
    row: PUseRow,
) -> Result<(), S::Error>
    requires { row.pair.name < length covered.items.now.names }
    ensures { OnOk result (SendsValue (p_use_json (holds covered.entry.facts.now) covered.entry.items.now.names row) (S.written out.old) (S.written out.new)) }
{
    let pair = row.pair;
    out.begin_map(Some(5))?;
    put_covered(
        out,
        covered.facts,
        Fact::PUse(pair.def, pair.user, row.outcome),
    )?;
    put_site(out, "def", pair.def, pair.def_pos)?;
    put_name(out, covered.items, pair.name)?;
    put_outcome(covered.alloc, out, row.label)?;
    put_site(out, "use", pair.user, pair.use_pos)?;
    out.end_map()?;
    Ok(())
}
