// What an operator's operands come to: the type of the result, or a complaint.

ghost use Rattle.std.specs.Prelude.{◌≡◌, OnOk, IfOk};
ghost use Rattle.c_type_rules.specs.Kinds.{type_in};
ghost use Rattle.c_type_rules.specs.Layouts.{measures, measure, measure_of};
ghost use Rattle.c_type_rules.specs.Verdicts.{verdict_of};
ghost use Rattle.c_syntax.specs.View.{type_of};
ghost use Rattle.c_syntax.specs.Shape.{pointer};
ghost use Rattle.c_tree.specs.State.{complain};
ghost use Rattle.c_tree.specs.Rulings.{by, then_rule, kind_at, rule, of_kind, allowed_if, whole, by_room, object, complete, by_end, moved, size_in, size_constant, sized, as_size, cast_constant, element_constant, comma_kind, allowed};
ghost use Rattle.c_checker.specs.CheckerView.{state_of};
ghost use Rattle.c_checker.specs.RulingView.{ruled_of};

use crate::checker::Checker;
use c_base::place::{IntKind, NoMemory, Pos};
use c_constants::constants::Constant;
use c_constants::{operators, places};
use c_syntax::tree::CType;
use c_tree::complaints::{INCOMPLETE_TYPE, TOO_LARGE_TYPE, WRONG_TYPE};
use c_type_rules::extent::Measured;
use c_type_rules::judged::Judged;
use c_type_rules::kinds::decayed;
use c_type_rules::layout::measured;

/// What an operator comes to: the type of its result; nothing, where a complaint stands inside an operand; or the number of
/// a complaint.
#[derive(Drop)]
pub enum Ruling {
    Allowed(CType),
    Unsettled,
    Refused(u8),
}

impl Checker {
    /// Adds the ruling's complaint, if it is one, at that token, and answers the type.
    pub fn rule(&mut self, ruling: Ruling, token: u32, pos: Pos) -> Result<Option<CType>, NoMemory>
        ensures kind { IfOk result (λ k. type_in k ≡ kind_at (ruled_of ruling)) }
        ensures state { OnOk result (state_of self.new ≡ rule (ruled_of ruling) token pos (state_of self.old)) }
        ensures rest { record self.new { complaints = self.old.complaints } ≡ self.old }
    {
        match ruling {
            Ruling::Allowed(kind) => Ok(Some(kind)),
            Ruling::Unsettled => Ok(None),
            Ruling::Refused(number) => {
                self.complain(number, token, pos)?;
                Ok(None)
            }
        }
    }
}

impl Ruling {
    /// The type that it allows.
    pub fn kind(self) -> Option<CType>
        ensures { type_in result ≡ kind_at (ruled_of self) }
    {
        match self {
            Ruling::Allowed(kind) => Some(kind),
            _ => None,
        }
    }
}

/// The verdict, with the number of the complaint where it is wrong.
pub fn by(number: u8, judged: Judged) -> Ruling
    ensures { ruled_of result ≡ by number (verdict_of judged) }
{
    match judged {
        Judged::Fine(kind) => Ruling::Allowed(kind),
        Judged::Unknown => Ruling::Unsettled,
        Judged::Wrong => Ruling::Refused(number),
    }
}

/// The type, if there is one.
pub fn settled(kind: Option<CType>) -> Ruling
    ensures { ruled_of result ≡ of_kind (type_in kind) allowed }
{
    match kind {
        None => Ruling::Unsettled,
        Some(kind) => Ruling::Allowed(kind),
    }
}

/// The type, if there is one, where the test holds; else the complaint.
pub fn settled_if(test: bool, number: u8, kind: Option<CType>) -> Ruling
    ensures { ruled_of result ≡ of_kind (type_in kind) (allowed_if test number) }
{
    match kind {
        None => Ruling::Unsettled,
        Some(kind) => allowed_if(test, number, kind),
    }
}

/// The type where the test holds, else the complaint.
pub fn allowed_if(test: bool, number: u8, kind: CType) -> Ruling
    ensures { ruled_of result ≡ allowed_if test number (type_of kind) }
{
    if test {
        Ruling::Allowed(kind)
    } else {
        Ruling::Refused(number)
    }
}

/// An object's type is complete (C89, 3.1.2.5) and not too large.
pub fn whole(kind: CType, rooms: &[Measured]) -> Ruling
    ensures { ruled_of result ≡ whole (measures rooms.now) (type_of kind) }
{
    match measured(&kind, rooms) {
        Measured::Known(_) => Ruling::Allowed(kind),
        Measured::Incomplete => Ruling::Refused(INCOMPLETE_TYPE),
        Measured::TooLarge => Ruling::Refused(TOO_LARGE_TYPE),
    }
}

/// The same of the type, if there is one.
pub fn settled_whole(kind: Option<CType>, rooms: &[Measured]) -> Ruling
    ensures { ruled_of result ≡ of_kind (type_in kind) (whole (measures rooms.now)) }
{
    match kind {
        None => Ruling::Unsettled,
        Some(kind) => whole(kind, rooms),
    }
}

/// What is reached through a pointer: an object, or a void.
pub fn object(ruling: Ruling, rooms: &[Measured]) -> Ruling
    ensures { ruled_of result ≡ then_rule (ruled_of ruling) (object (measures rooms.now)) }
{
    match ruling {
        Ruling::Allowed(CType::Void) => Ruling::Allowed(CType::Void),
        Ruling::Allowed(kind) => whole(kind, rooms),
        other => other,
    }
}

/// A type that was completed (C89, 3.5.2.3).
pub fn complete(ruling: Ruling, rooms: &[Measured]) -> Ruling
    ensures { ruled_of result ≡ then_rule (ruled_of ruling) (complete (measures rooms.now)) }
{
    match ruling {
        Ruling::Allowed(kind) => completed(kind, rooms),
        other => other,
    }
}

// It was completed.
fn completed(kind: CType, rooms: &[Measured]) -> Ruling
    ensures { ruled_of result ≡ complete (measures rooms.now) (type_of kind) }
{
    match measured(&kind, rooms) {
        Measured::Incomplete => Ruling::Refused(INCOMPLETE_TYPE),
        _ => Ruling::Allowed(kind),
    }
}

/// A value that may be a pointer which was moved along: over a void, or over a complete type (C89, 3.3.6).
pub fn moved(ruling: Ruling, rooms: &[Measured]) -> Ruling
    ensures { ruled_of result ≡ then_rule (ruled_of ruling) (moved (measures rooms.now)) }
{
    match ruling {
        Ruling::Allowed(CType::Pointer(to)) => moved_over(to, rooms),
        other => other,
    }
}

// A pointer that was moved along.
fn moved_over(to: Box<CType>, rooms: &[Measured]) -> Ruling
    ensures { ruled_of result ≡ moved (measures rooms.now) (pointer (type_of to.value)) }
{
    if matches!(&*to, CType::Void) {
        return Ruling::Allowed(CType::Pointer(to));
    }
    match measured(&to, rooms) {
        Measured::Incomplete => Ruling::Refused(INCOMPLETE_TYPE),
        _ => Ruling::Allowed(CType::Pointer(to)),
    }
}

/// The operand of a `sizeof` (C89, 3.3.3.4), if it has a type.
pub fn settled_sized(kind: Option<CType>, rooms: &[Measured]) -> Ruling
    ensures { ruled_of result ≡ of_kind (type_in kind) (sized (measures rooms.now)) }
{
    match kind {
        None => Ruling::Unsettled,
        Some(CType::Void) => Ruling::Refused(WRONG_TYPE),
        Some(kind) => whole(kind, rooms),
    }
}

/// A `sizeof` has the type unsigned long (C89, 3.3.3.4).
pub fn as_size(ruling: Ruling) -> Ruling
    ensures { ruled_of result ≡ then_rule (ruled_of ruling) as_size }
{
    match ruling {
        Ruling::Allowed(_) => Ruling::Allowed(CType::Int(IntKind::ULong)),
        other => other,
    }
}

/// The size of an object of that type, as a constant.
pub fn size_constant(rooms: &[Measured], kind: &Option<CType>) -> Constant
    ensures { result ≡ size_constant (measures rooms.now) (type_in kind.now) }
{
    match kind {
        None => Constant::No,
        Some(kind) => size_in(measured(kind, rooms)),
    }
}

// The size of that room.
fn size_in(room: Measured) -> Constant
    ensures { result ≡ size_in (measure_of room) }
{
    match room {
        Measured::Known(layout) => Constant::Known(IntKind::ULong, i128::from(layout.size)),
        _ => Constant::No,
    }
}

/// A cast of a constant (C89, 3.3.4).
pub fn cast_constant(kind: &Option<CType>, a: Constant) -> Constant
    ensures { result ≡ cast_constant (type_in kind.now) a }
{
    match kind {
        None => Constant::No,
        Some(kind) => operators::cast(kind, a),
    }
}

/// An element of a constant place (C89, 3.3.2.1).
pub fn element_constant(
    left: &Option<CType>,
    a: Constant,
    right: &Option<CType>,
    b: Constant,
) -> Constant
    ensures { result ≡ element_constant (type_in left.now) a (type_in right.now) b }
{
    match (left, right) {
        (Some(left), Some(right)) => places::element(left, a, right, b),
        _ => Constant::No,
    }
}

/// The value of the right side of a comma (C89, 3.3.17).
pub fn comma_kind(left: Option<CType>, right: Option<CType>) -> Ruling
    ensures { ruled_of result ≡ comma_kind (type_in left) (type_in right) }
{
    match (left, right) {
        (Some(_), Some(kind)) => Ruling::Allowed(decayed(kind)),
        _ => Ruling::Unsettled,
    }
}
