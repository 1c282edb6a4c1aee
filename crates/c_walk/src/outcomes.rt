// The outcomes of a decision.

ghost use Rattle.std.specs.Prelude.{◌≡◌, ◌+◌, ◌++◌, [], ◌∷◌, OnOk, IfOk};
ghost use Rattle.c_walk.specs.ItemView.{outcomes_shape};
ghost use Rattle.c_walk.specs.Items.{labels, case_labels};

use crate::items::Outcomes;
use c_base::labels::{Labels, OutcomeLabel};
use c_base::place::NoMemory;
use std::alloc::Global;

/// The outcomes of a decision, each with its number and its label.
pub fn labels_of(alloc: Global, outcomes: &Outcomes) -> Result<Labels, NoMemory>
    ensures { IfOk result (λ l. l ≡ labels (outcomes_shape outcomes.now)) }
{
    let mut out = Labels::new(alloc);
    put_labels(&mut out, outcomes)?;
    Ok(out)
}

fn put_labels(out: &mut Labels, outcomes: &Outcomes) -> Result<(), NoMemory>
    ensures { OnOk result (out.new ≡ out.old ++ labels (outcomes_shape outcomes.now)) }
{
    match outcomes {
        Outcomes::Both => {
            put(out, 1, OutcomeLabel::True)?;
            put(out, 2, OutcomeLabel::False)
        }
        Outcomes::OnlyTrue => put(out, 1, OutcomeLabel::True),
        Outcomes::OnlyFalse => put(out, 2, OutcomeLabel::False),
        Outcomes::Cases(values) => put_cases(out, values),
    }
}

fn put_cases(out: &mut Labels, values: &[i128]) -> Result<(), NoMemory>
    ensures { OnOk result (out.new ≡ out.old ++ case_labels 1 values.now) }
{
    let mut number: u32 = 1;
    for value in values {
        put(out, number, OutcomeLabel::Case(*value))?;
        number = next(number)?;
    }
    put(out, number, OutcomeLabel::Rest)
}

fn put(out: &mut Labels, number: u32, label: OutcomeLabel) -> Result<(), NoMemory>
    ensures { OnOk result (out.new ≡ out.old ++ (number, label) ∷ []) }
{
    if out.len() == u32::MAX {
        return Err(NoMemory);
    }
    out.push((number, label))
}

fn next(number: u32) -> Result<u32, NoMemory>
    ensures { IfOk result (λ n. n ≡ number + 1) }
{
    match number.checked_add(1) {
        Some(number) => Ok(number),
        None => Err(NoMemory),
    }
}
