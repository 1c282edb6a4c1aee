// Probes round expressions.

ghost use Rattle.std.specs.Prelude.{◌≡◌, None, OnOk, IfOk};
ghost use Rattle.c_scopes.specs.Scoping.{named};
ghost use Rattle.c_type_rules.specs.Kinds.{type_in};
ghost use Rattle.c_type_rules.specs.Verdicts.{truth_type, probed_type};
ghost use Rattle.c_tree.specs.Rulings.{by, then_rule, of_kind, allowed_if};
ghost use Rattle.c_tree.specs.Operators.{seen_of, with_seen, claimed, claim, as_decayed, is_copied, probe_rule, probe_sort, typed_probe};
ghost use Rattle.c_checker.specs.CheckerView as views;
ghost use Rattle.c_checker.specs.CheckerView.{state_of};
ghost use Rattle.c_checker.specs.RulingView.{ruled_of};
ghost use Rattle.c_checker.specs.SortView.{sort_of, typing_of};
ghost use Rattle.c_checker.specs.ProbeView.{probing_of};
ghost use Rattle.c_tree.specs.Complaints.{wrong_type};

use crate::checker::{Checker, Seen};
use crate::ruling::{Ruling, allowed_if, by};
use crate::sort::{Sort, Typing};
use c_base::place::{NoMemory, Pos};
use c_constants::places;
use c_constants::probes::probe_number;
use c_syntax::tree::CType;
use c_tree::complaints::{STRAY, WRONG_TYPE};
use c_tree::meaning::Side;
use c_type_rules::kinds::{decayed, is_scalar};
use c_type_rules::storing;

/// The probes that have no case constants.
#[derive(Clone, Copy, Debug, PartialEq, Eq)]
pub enum Probing {
    Block,
    Test,
    Use,
    Def,
}

impl Seen {
    // The number that was seen in a probe of that kind, by its spelling.
    fn find(&self, probing: Probing, spelled: &[u8]) -> Option<u16>
        ensures { result ≡ named spelled.now (seen_of (probing_of probing) (views.seen_of self.now)) }
    {
        match probing {
            Probing::Block => self.blocks.find(spelled),
            Probing::Test => self.tests.find(spelled),
            Probing::Use => self.uses.find(spelled),
            Probing::Def => self.defs.find(spelled),
        }
    }

    // The number is seen in a probe of that kind.
    fn add(&mut self, probing: Probing, spelled: &[u8], number: u16) -> Result<(), NoMemory>
        requires { named spelled.now (seen_of (probing_of probing) (views.seen_of self.old)) ≡ None }
        ensures { OnOk result (views.seen_of self.new ≡ with_seen (probing_of probing) spelled.now number (views.seen_of self.old)) }
    {
        match probing {
            Probing::Block => self.blocks.declare(spelled, number),
            Probing::Test => self.tests.declare(spelled, number),
            Probing::Use => self.uses.declare(spelled, number),
            Probing::Def => self.defs.declare(spelled, number),
        }
    }
}

impl Checker {
    /// The number of a probe, at its word: from 1 to 16383, and new for its kind.
    pub fn claim(
        &mut self,
        probing: Probing,
        spelled: &[u8],
        token: u32,
        pos: Pos,
    ) -> Result<(), NoMemory>
        ensures { OnOk result (state_of self.new ≡ claim (probing_of probing) spelled.now token pos (state_of self.old)) }
    {
        match (probe_number(spelled), self.seen.find(probing, spelled)) {
            (Some(number), None) => self.seen.add(probing, spelled, number),
            _ => self.complain(STRAY, token, pos),
        }
    }

    /// A probe round an expression, on that side of an assignment, behind which the closing parenthesis stands.
    pub fn typed_probe(
        &mut self,
        token: u32,
        pos: Pos,
        probing: Probing,
        side: Side,
        a: Sort,
    ) -> Result<Typing, NoMemory>
        ensures typing { IfOk result (λ t. typing_of t ≡ (typed_probe token pos (probing_of probing) side (sort_of a) (state_of self.old)).typing) }
        ensures state { OnOk result (state_of self.new ≡ (typed_probe token pos (probing_of probing) side (sort_of a) (state_of self.old)).state) }
    {
        let constant = a.constant;
        let kind = self.rule(probe_rule(probing, side, a), token, pos)?;
        self.step();
        match probing {
            Probing::Block | Probing::Test => {
                Ok(Typing::plainly(Sort::value(kind, places::probed(constant))))
            }
            Probing::Use | Probing::Def => Ok(Typing::plainly(Sort::place(kind, constant))),
        }
    }
}

// A probe of a definition to the left of `=`, or of a use to the right of a structure's, is one of each cell that is copied.
fn is_copied(probing: Probing, side: Side) -> bool
    ensures { result ≡ is_copied (probing_of probing) side }
{
    matches!(
        (probing, side),
        (Probing::Use, Side::Right) | (Probing::Def, Side::Left)
    )
}

// A block round anything; a test round a scalar; the other two round a place of one, or of a structure that is copied.
fn probe_rule(probing: Probing, side: Side, a: Sort) -> Ruling
    ensures { ruled_of result ≡ probe_rule (probing_of probing) side (sort_of a) }
{
    match probing {
        Probing::Block => block_rule(a.kind),
        Probing::Test => test_rule(a.kind),
        Probing::Use | Probing::Def => {
            let copied = is_copied(probing, side);
            place_rule(copied, a)
        }
    }
}

// Anything, as a value.
fn block_rule(kind: Option<CType>) -> Ruling
    ensures { ruled_of result ≡ of_kind (type_in kind) as_decayed }
{
    match kind {
        None => Ruling::Unsettled,
        Some(kind) => Ruling::Allowed(decayed(kind)),
    }
}

// A scalar, as a value.
fn test_rule(kind: Option<CType>) -> Ruling
    ensures { ruled_of result ≡ then_rule (by wrong_type (truth_type (type_in kind))) (λ t. of_kind (type_in kind) as_decayed) }
{
    match kind {
        None => Ruling::Unsettled,
        Some(kind) => {
            let kind = decayed(kind);
            let tested = is_scalar(&kind);
            allowed_if(tested, WRONG_TYPE, kind)
        }
    }
}

// A place of a scalar, or of a structure where it is copied.
fn place_rule(copied: bool, a: Sort) -> Ruling
    ensures { ruled_of result ≡ then_rule (by wrong_type (probed_type copied (sort_of a).kind)) (allowed_if (sort_of a).place wrong_type) }
{
    match by(WRONG_TYPE, storing::probed_place(copied, a.kind)) {
        Ruling::Allowed(kind) => allowed_if(a.place, WRONG_TYPE, kind),
        other => other,
    }
}
