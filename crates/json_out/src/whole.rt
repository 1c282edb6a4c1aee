//! The lists of all items, and the object that they make.

ghost use Rattle.std.specs.Prelude.{◌≡◌, codes, OnOk};
ghost use Rattle.atac_facts.specs.Sets.{holds};
ghost use Rattle.serde_json.specs.Data.{array};
ghost use Rattle.serde_json.specs.Events.{SendsValue};
ghost use Rattle.json_out.specs.Json.{blocks_json, each_json, outcome_json, c_use_json, p_use_json, json_of};
ghost use Rattle.json_out.specs.Sending.{AddsMember};

use crate::rows::{Covered, send_block, send_c_use, send_outcome, send_p_use};
use serde::{Described, Serialize, Serializer};

fn send_blocks<S: Serializer>(covered: Covered<'_>, out: &mut S) -> Result<(), S::Error>
    ensures { OnOk result (SendsValue (array (blocks_json (holds covered.entry.facts.now) 0 covered.entry.items.now.blocks)) (S.written out.old) (S.written out.new)) }
{
    let items = covered.items;
    out.begin_seq(Some(items.blocks() as usize))?;
    for k in 0..items.blocks() {
        prove!(k < 65535);
        send_block(covered, out, (k + 1) as u16, items.block(k))?;
    }
    out.end_seq()?;
    Ok(())
}

fn send_outcomes<S: Serializer>(covered: Covered<'_>, out: &mut S) -> Result<(), S::Error>
    ensures { OnOk result (SendsValue (array (each_json (outcome_json (holds covered.entry.facts.now)) covered.entry.items.now.outcomes)) (S.written out.old) (S.written out.new)) }
{
    let items = covered.items;
    out.begin_seq(Some(items.outcomes() as usize))?;
    for i in 0..items.outcomes() {
        send_outcome(covered, out, items.outcome(i))?;
    }
    out.end_seq()?;
    Ok(())
}

fn send_c_uses<S: Serializer>(covered: Covered<'_>, out: &mut S) -> Result<(), S::Error>
    ensures { OnOk result (SendsValue (array (each_json (c_use_json (holds covered.entry.facts.now) covered.entry.items.now.names) covered.entry.items.now.c_uses)) (S.written out.old) (S.written out.new)) }
{
    let items = covered.items;
    out.begin_seq(Some(items.c_uses() as usize))?;
    for i in 0..items.c_uses() {
        send_c_use(covered, out, items.c_use(i))?;
    }
    out.end_seq()?;
    Ok(())
}

fn send_p_uses<S: Serializer>(covered: Covered<'_>, out: &mut S) -> Result<(), S::Error>
    ensures { OnOk result (SendsValue (array (each_json (p_use_json (holds covered.entry.facts.now) covered.entry.items.now.names) covered.entry.items.now.p_uses)) (S.written out.old) (S.written out.new)) }
{
    let items = covered.items;
    out.begin_seq(Some(items.p_uses() as usize))?;
    for i in 0..items.p_uses() {
        send_p_use(covered, out, items.p_use(i))?;
    }
    out.end_seq()?;
    Ok(())
}

// The object of all lists.
fn send_whole<S: Serializer>(covered: Covered<'_>, out: &mut S) -> Result<(), S::Error>
    ensures { OnOk result (SendsValue (json_of covered.entry.items.now (holds covered.entry.facts.now)) (S.written out.old) (S.written out.new)) }
{
    out.begin_map(Some(4))?;
    out.key("blocks")?;
    send_blocks(covered, out)?;
    out.key("c-uses")?;
    send_c_uses(covered, out)?;
    out.key("decisions")?;
    send_outcomes(covered, out)?;
    out.key("p-uses")?;
    send_p_uses(covered, out)?;
    out.end_map()?;
    Ok(())
}

impl Described for Covered<'_> {
    ghost writes = { λ c. SendsValue (json_of c.items.now (holds c.facts.now)) };
}

impl Serialize for Covered<'_> {
    fn serialize<S: Serializer>(&self, out: &mut S) -> Result<(), S::Error> {
        send_whole(*self, out)
    }
}
