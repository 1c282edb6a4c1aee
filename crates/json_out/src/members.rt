//! Members of objects: each a key and a value.

ghost use Rattle.std.specs.Prelude.{◌<◌, length, codes, OnOk};
ghost use Rattle.atac_facts.specs.Sets.{holds};
ghost use Rattle.cover_report.specs.ItemTexts.{label_text, name_of};
ghost use Rattle.serde_json.specs.Data.{boolean, string};
ghost use Rattle.serde_json.specs.Events.{SendsValue};
ghost use Rattle.json_out.specs.Json.{numeral, site_json};
ghost use Rattle.json_out.specs.Sending.{AddsMember};

use atac_base::items::Items;
use atac_facts::fact::Fact;
use atac_facts::facts::Facts;
use c_base::labels::OutcomeLabel;
use c_base::place::Pos;
use serde::Serializer;
use std::alloc::Global;

pub fn put_number<S: Serializer>(out: &mut S, key: &str, number: u32) -> Result<(), S::Error>
    ensures { OnOk result (AddsMember key.now (numeral number) (S.written out.old) (S.written out.new)) }
{
    out.key(key)?;
    out.u64(number as u64)?;
    Ok(())
}

/// Whether the facts cover the item of this fact.
pub fn put_covered<S: Serializer>(out: &mut S, facts: &Facts, fact: Fact) -> Result<(), S::Error>
    ensures { OnOk result (AddsMember (codes "covered") (boolean (holds facts.now fact)) (S.written out.old) (S.written out.new)) }
{
    out.key("covered")?;
    out.bool(facts.has(fact))?;
    Ok(())
}

/// A leaf name of the items, by its index.
pub fn put_name<S: Serializer>(out: &mut S, items: &Items, index: u32) -> Result<(), S::Error>
    requires { index < length items.now.names }
    ensures { OnOk result (AddsMember (codes "name") (string (name_of items.now.names index)) (S.written out.old) (S.written out.new)) }
{
    out.key("name")?;
    out.str(items.name(index))?;
    Ok(())
}

// The outcome of a case constant.
fn send_case<S: Serializer>(alloc: Global, out: &mut S, value: i128) -> Result<(), S::Error>
    ensures { OnOk result (SendsValue (string (label_text (OutcomeLabel.Case value))) (S.written out.old) (S.written out.new)) }
{
    match format!(in alloc; "case {value}") {
        Ok(text) => out.str(text.as_str()),
        Err(_) => Err(out.custom("no memory")),
    }
}

fn send_label<S: Serializer>(
    alloc: Global,
    out: &mut S,
    label: OutcomeLabel,
) -> Result<(), S::Error>
    ensures { OnOk result (SendsValue (string (label_text label)) (S.written out.old) (S.written out.new)) }
{
    match label {
        OutcomeLabel::True => out.str("true"),
        OutcomeLabel::False => out.str("false"),
        OutcomeLabel::Case(value) => send_case(alloc, out, value),
        OutcomeLabel::Rest => out.str("rest"),
    }
}

/// What an outcome is, as it is printed.
pub fn put_outcome<S: Serializer>(
    alloc: Global,
    out: &mut S,
    label: OutcomeLabel,
) -> Result<(), S::Error>
    ensures { OnOk result (AddsMember (codes "outcome") (string (label_text label)) (S.written out.old) (S.written out.new)) }
{
    out.key("outcome")?;
    send_label(alloc, out, label)?;
    Ok(())
}

fn send_site<S: Serializer>(out: &mut S, number: u16, pos: Pos) -> Result<(), S::Error>
    ensures { OnOk result (SendsValue (site_json number pos) (S.written out.old) (S.written out.new)) }
{
    out.begin_map(Some(3))?;
    put_number(out, "col", pos.col)?;
    put_number(out, "line", pos.line)?;
    put_number(out, "number", number as u32)?;
    out.end_map()?;
    Ok(())
}

/// A definition or a use, by its number and place.
pub fn put_site<S: Serializer>(
    out: &mut S,
    key: &str,
    number: u16,
    pos: Pos,
) -> Result<(), S::Error>
    ensures { OnOk result (AddsMember key.now (site_json number pos) (S.written out.old) (S.written out.new)) }
{
    out.key(key)?;
    send_site(out, number, pos)?;
    Ok(())
}
