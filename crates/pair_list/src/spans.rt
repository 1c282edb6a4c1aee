//! The span of the uses of a function's rows.

ghost use Rattle.std.specs.Prelude.{◌≡◌, ◌<◌, ◌≤◌, ◌+◌, ℕ, length};
ghost use Rattle.flow_walks.specs.declared.action.Action.TheVariants.{Use};
ghost use Rattle.flow_marks.specs.Paths.{action_at};

use flow_marks::flow::FlowRow;
use flow_walks::action::Action;

/// The uses from the low one to below the high one.
#[derive(Clone, Copy, Debug, PartialEq, Eq)]
pub struct Span {
    pub low: u16,
    pub high: u16,
}

fn with_use(span: Span, u: u16) -> Span
    requires some { 1 ≤ u }
    requires few { u < 65535 }
    requires order { (1 ≤ span.low) × (span.low ≤ span.high) }
    ensures order { (1 ≤ result.low) × (result.low ≤ result.high) }
    ensures here { (result.low ≤ u) × (u < result.high) }
    ensures kept { (n : ℕ) → span.low ≤ n → n < span.high → (result.low ≤ n) × (n < result.high) }
    ensures bound { (n : ℕ) → u < n → span.high ≤ n → result.high ≤ n }
{
    if span.low == span.high {
        return Span {
            low: u,
            high: u + 1,
        };
    }
    let low = if u < span.low { u } else { span.low };
    let high = if u < span.high { span.high } else { u + 1 };
    Span { low, high }
}

// The span of a row's use too, if it is one of so many.
fn with_action(span: Span, action: Action, uses: u16) -> Span
    requires few { uses < 65535 }
    requires within { span.high ≤ uses + 1 }
    requires order { (1 ≤ span.low) × (span.low ≤ span.high) }
    ensures order { (1 ≤ result.low) × (result.low ≤ result.high) }
    ensures here { (u : ℕ) → action ≡ Use u → 1 ≤ u → u ≤ uses → (result.low ≤ u) × (u < result.high) }
    ensures kept { (n : ℕ) → span.low ≤ n → n < span.high → (result.low ≤ n) × (n < result.high) }
    ensures within { result.high ≤ uses + 1 }
{
    match action {
        Action::Use(u) => {
            if u >= 1 && u <= uses {
                with_use(span, u)
            } else {
                span
            }
        }
        _ => span,
    }
}

/// A span that has each use of these rows that is one of so many.
pub fn span_of(flow: &[FlowRow], uses: u16) -> Span
    requires { uses < 65535 }
    ensures order { (1 ≤ result.low) × (result.low ≤ result.high) }
    ensures all { (row u : ℕ) → action_at flow.now row ≡ Use u → 1 ≤ u → u ≤ uses → (result.low ≤ u) × (u < result.high) }
    ensures within { result.high ≤ uses + 1 }
{
    let mut span = Span { low: 1, high: 1 };
    for row in 0..flow.len() {
        let action = flow[row].action;
        span = with_action(span, action, uses);
    }
    span
}
