// What a function's name stands for (C89, 3.1.2.1 and 3.5.4.3).

ghost use Rattle.std.specs.Prelude.{◌≡◌, ◌&&◌, not, false, Some, None, ◌≤◌, length, map, OnOk, IfOk};
ghost use Rattle.c_base.specs.declared.place.IntKind.TheVariants as kinds;
ghost use Rattle.c_type_rules.specs.Kinds.{type_in, same_type};
ghost use Rattle.c_scopes.specs.Scoping.{find_here};
ghost use Rattle.c_syntax.specs.Shape.{int};
ghost use Rattle.c_syntax.specs.View.{type_of};
ghost use Rattle.c_tree.specs.Declaring.{is_builtin, same_builtin, same_function, names_function, is_defined, function_at, unclear_at, bodied, signature_of, declare_function};
ghost use Rattle.c_checker.specs.CheckerView.{state_of};
ghost use Rattle.c_types_decl.specs.Entities.{signature, types_in, are_one_int, builtin_of, entity_or};

use crate::bodies::give_bodies;
use c_base::place::{IntKind, NoMemory, Pos};
use c_checker::checker::Checker;
use c_syntax::text::Text;
use c_syntax::tree::CType;
use c_tables::builtins::Builtin;
use c_tree::complaints::DECLARED_TWICE;
use c_tree::meaning::Entity;

// Whether the type is int.
fn is_int(kind: &CType) -> bool
    ensures { result ≡ same_type (type_of kind.now) (int kinds.Int) }
{
    match kind {
        CType::Int(kind) => matches!(kind, IntKind::Int),
        _ => false,
    }
}

// Whether the types are one int.
fn are_one_int(kinds: &[CType]) -> bool
    ensures { result ≡ are_one_int (map type_of kinds.now) }
{
    match kinds.split_first() {
        None => false,
        Some((first, rest)) => is_int(first) && rest.is_empty(),
    }
}

// Whether the function of that name and type is that built-in one.
fn is_builtin(builtin: Builtin, name: &[u8], gives: &CType, params: &[CType]) -> bool
    ensures { result ≡ is_builtin builtin name.now (signature (type_of gives.now) (map type_of params.now)) }
{
    match builtin {
        Builtin::GetChar => name == b"getchar".as_slice() && is_int(gives) && params.is_empty(),
        Builtin::PutChar => name == b"putchar".as_slice() && is_int(gives) && are_one_int(params),
        Builtin::Exit => name == b"exit".as_slice()
            && matches!(gives, CType::Void)
            && are_one_int(params),
    }
}

// The built-in function of that name and type, if it is one.
fn builtin_of(name: &[u8], gives: &CType, params: &[CType]) -> Option<Builtin>
    ensures { result ≡ builtin_of name.now (signature (type_of gives.now) (map type_of params.now)) }
{
    if is_builtin(Builtin::GetChar, name, gives, params) {
        Some(Builtin::GetChar)
    } else if is_builtin(Builtin::PutChar, name, gives, params) {
        Some(Builtin::PutChar)
    } else if is_builtin(Builtin::Exit, name, gives, params) {
        Some(Builtin::Exit)
    } else {
        None
    }
}

// The built-in function, or the one with that number.
fn entity_or(builtin: Option<Builtin>, number: u32) -> Entity
    ensures { result ≡ entity_or builtin number }
{
    match builtin {
        None => Entity::Function(number),
        Some(builtin) => Entity::Builtin(builtin),
    }
}

// Whether the two are one built-in function.
fn same_builtin(a: Builtin, b: Builtin) -> bool
    ensures { result ≡ same_builtin a b }
{
    matches!(
        (a, b),
        (Builtin::GetChar, Builtin::GetChar)
            | (Builtin::PutChar, Builtin::PutChar)
            | (Builtin::Exit, Builtin::Exit)
    )
}

// Whether the two are one function; what stands for nothing may be any.
fn same_function(a: Entity, b: Entity) -> bool
    ensures { result ≡ same_function a b }
{
    match (a, b) {
        (Entity::Function(n), Entity::Function(m)) => n == m,
        (Entity::Builtin(a), Entity::Builtin(b)) => same_builtin(a, b),
        (_, Entity::Unknown) => true,
        _ => false,
    }
}

// Whether it may be a function.
fn names_function(entity: Entity) -> bool
    ensures { result ≡ names_function entity }
{
    matches!(
        entity,
        Entity::Function(_) | Entity::Builtin(_) | Entity::Unknown
    )
}

// Whether it counts as defined already.
fn is_defined(checker: &Checker, entity: Entity) -> bool
    ensures { result ≡ is_defined entity (state_of checker.now) }
{
    match entity {
        Entity::Function(n) => match checker.function(n) {
            None => false,
            Some(row) => row.defined.is_some(),
        },
        Entity::Unknown => false,
        _ => true,
    }
}

// Whether the name of the one may be declared once more, as the other.
fn fits(checker: &Checker, defining: bool, entity: Entity, other: Entity) -> bool
    ensures { result ≡ (same_function entity other && not (defining && is_defined entity (state_of checker.now))) }
{
    same_function(entity, other) && !(defining && is_defined(checker, entity))
}

// Declares a function of a known type at that token.
fn function_at(
    checker: &mut Checker,
    defining: bool,
    token: u32,
    pos: Pos,
    name: &[u8],
    entity: Entity,
) -> Result<(), NoMemory>
    ensures { OnOk result (state_of checker.new ≡ function_at defining token pos name.now entity (find_here name.now (state_of checker.old).names) (state_of checker.old)) }
{
    match checker.names.find_here(name) {
        None => checker.names.declare(name, entity),
        Some(other) => {
            let fits = fits(checker, defining, entity, other);
            checker.demand(fits, DECLARED_TWICE, token, pos)
        }
    }
}

// Whether the name may be declared once more, as a function of an unclear type.
fn fits_unclear(checker: &Checker, defining: bool, other: Entity) -> bool
    ensures { result ≡ (names_function other && not (defining && is_defined other (state_of checker.now))) }
{
    names_function(other) && !(defining && is_defined(checker, other))
}

// Declares a function of an unclear type, which is equal to every other, at that token.
fn unclear_at(
    checker: &mut Checker,
    defining: bool,
    token: u32,
    pos: Pos,
    name: &[u8],
) -> Result<(), NoMemory>
    ensures { OnOk result (state_of checker.new ≡ unclear_at defining token pos name.now (find_here name.now (state_of checker.old).names) (state_of checker.old)) }
{
    match checker.names.find_here(name) {
        None => checker.names.declare(name, Entity::Unknown),
        Some(other) => {
            let fits = fits_unclear(checker, defining, other);
            checker.demand(fits, DECLARED_TWICE, token, pos)
        }
    }
}

// A body is one of each function of that name, if there is one.
fn give_body(checker: &mut Checker, defining: bool, name: &[u8])
    ensures { state_of checker.new ≡ bodied defining name.now (state_of checker.old) }
{
    if defining {
        give_bodies(&mut checker.tables, name, checker.alloc);
    }
}

/// Declares a function at that token, which gives that type and takes those, where both are clear: the number of its
/// row.
pub fn declare_function(
    checker: &mut Checker,
    defining: bool,
    token: u32,
    pos: Pos,
    name: &Text,
    gives: Option<CType>,
    params: Option<Vec<CType>>,
) -> Result<u32, NoMemory>
    ensures number { IfOk result (λ n. n ≡ (declare_function defining token pos name.now (signature_of (type_in gives) (types_in params)) (state_of checker.old)).number) }
    ensures state { OnOk result (state_of checker.new ≡ (declare_function defining token pos name.now (signature_of (type_in gives) (types_in params)) (state_of checker.old)).state) }
{
    match (gives, params) {
        (Some(gives), Some(params)) => {
            declare_known(checker, defining, token, pos, name, gives, params)
        }
        _ => declare_unclear(checker, defining, token, pos, name),
    }
}

// Declares a function of a known type: the number of its row.
fn declare_known(
    checker: &mut Checker,
    defining: bool,
    token: u32,
    pos: Pos,
    name: &Text,
    gives: CType,
    params: Vec<CType>,
) -> Result<u32, NoMemory>
    ensures number { IfOk result (λ n. n ≡ (declare_function defining token pos name.now (Some (signature (type_of gives) (map type_of params.items))) (state_of checker.old)).number) }
    ensures state { OnOk result (state_of checker.new ≡ (declare_function defining token pos name.now (Some (signature (type_of gives) (map type_of params.items))) (state_of checker.old)).state) }
{
    let name = bytes_of(name);
    let builtin = builtin_of(name, &gives, &params);
    let number = checker.mention(name, gives, params)?;
    function_at(
        checker,
        defining,
        token,
        pos,
        name,
        entity_or(builtin, number),
    )?;
    Ok(number)
}

// The bytes of a name, which are at most 4,294,967,295.
fn bytes_of(name: &Text) -> &[u8]
    ensures bytes { result.now ≡ name.now }
    ensures few { length result.now ≤ 4294967295 }
{
    let _count = name.len();
    name.bytes()
}

// Declares a function of an unclear type, which has no row.
fn declare_unclear(
    checker: &mut Checker,
    defining: bool,
    token: u32,
    pos: Pos,
    name: &Text,
) -> Result<u32, NoMemory>
    ensures number { IfOk result (λ n. n ≡ (declare_function defining token pos name.now None (state_of checker.old)).number) }
    ensures state { OnOk result (state_of checker.new ≡ (declare_function defining token pos name.now None (state_of checker.old)).state) }
{
    let before = checker.tables.functions();
    if before == u32::MAX {
        return Err(NoMemory);
    }
    unclear_at(checker, defining, token, pos, name.bytes())?;
    give_body(checker, defining, name.bytes());
    Ok(before + 1)
}
