// The tags of structures and enumerations (C89, 3.5.2.3).

ghost use Rattle.std.specs.Prelude.{◌≡◌, None, OnOk, IfOk};
ghost use Rattle.c_scopes.specs.Scoping.{find, find_here};
ghost use Rattle.c_tree.specs.State.{steps};
ghost use Rattle.c_tree.specs.Parts.{next_structure, with_structure, with_tag, new_structure, twice, known_structure, listed_structure, bare_structure, opened, tag_tokens, known_enumeration, listed_enumeration, enumeration};
ghost use Rattle.c_checker.specs.CheckerView.{state_of};

use c_base::place::{NoMemory, Pos};
use c_checker::checker::Checker;
use c_syntax::text::Text;
use c_syntax::tree::Named;
use c_tables::tables::StructRow;
use c_tree::complaints::{DECLARED_TWICE, UNKNOWN_NAME};
use c_tree::meaning::Tag;
use c_type_rules::extent::Measured;

/// The tag of a structure, behind its key: the structure's number, where no complaint came. `alone` says that no declarator
/// follows, `listed` that a member list does.
pub fn opened(
    checker: &mut Checker,
    alone: bool,
    listed: bool,
    tag: &Option<Named>,
) -> Result<Option<u32>, NoMemory>
    ensures number { IfOk result (λ n. n ≡ (opened alone listed tag.now (state_of checker.old)).number) }
    ensures state { OnOk result (state_of checker.new ≡ (opened alone listed tag.now (state_of checker.old)).state) }
{
    match (tag, listed) {
        (None, true) => {
            let number = add_structure(checker, None)?;
            Ok(Some(number))
        }
        (Some(tag), true) => listed_structure(checker, tag),
        (None, false) => Ok(None),
        (Some(tag), false) => bare_structure(checker, alone, tag),
    }
}

// A structure that wasn't there before: its number.
fn add_structure(checker: &mut Checker, tag: Option<Text>) -> Result<u32, NoMemory>
    ensures number { IfOk result (λ n. n ≡ next_structure (state_of checker.old)) }
    ensures state { OnOk result (state_of checker.new ≡ with_structure tag (state_of checker.old)) }
    ensures tags { checker.new.tags ≡ checker.old.tags }
{
    let before = checker.tables.structures();
    if before == u32::MAX {
        return Err(NoMemory);
    }
    let fields = Vec::new(checker.alloc);
    checker.tables.push_structure(StructRow { tag, fields })?;
    if checker.rooms.push(Measured::Incomplete).is_err() {
        return Err(NoMemory);
    }
    if checker.begun.push(false).is_err() {
        return Err(NoMemory);
    }
    Ok(before + 1)
}

// A structure with a tag that the scope doesn't have.
fn new_structure(checker: &mut Checker, tag: &Text) -> Result<Option<u32>, NoMemory>
    requires { find_here tag.now (state_of checker.old).tags ≡ None }
    ensures number { IfOk result (λ n. n ≡ (new_structure tag.now (state_of checker.old)).number) }
    ensures state { OnOk result (state_of checker.new ≡ (new_structure tag.now (state_of checker.old)).state) }
{
    let text = tag.copy(checker.alloc)?;
    let number = add_structure(checker, Some(text))?;
    checker.tags.declare(tag.bytes(), Tag::Structure(number))?;
    Ok(Some(number))
}

// The tag stands for something else, or has its list already.
fn twice(checker: &mut Checker, pos: Pos) -> Result<Option<u32>, NoMemory>
    ensures number { IfOk result (λ n. n ≡ (twice pos (state_of checker.old)).number) }
    ensures state { OnOk result (state_of checker.new ≡ (twice pos (state_of checker.old)).state) }
{
    checker.complain(DECLARED_TWICE, checker.at, pos)?;
    Ok(None)
}

// A tag without a list; alone in its declaration it is declared in the present scope.
fn bare_structure(checker: &mut Checker, alone: bool, tag: &Named) -> Result<Option<u32>, NoMemory>
    ensures number { IfOk result (λ n. n ≡ (bare_structure alone tag.now.pos tag.now.text (state_of checker.old)).number) }
    ensures state { OnOk result (state_of checker.new ≡ (bare_structure alone tag.now.pos tag.now.text (state_of checker.old)).state) }
{
    if alone {
        let found = checker.tags.find_here(tag.text.bytes());
        known_structure(checker, tag, found)
    } else {
        let found = checker.tags.find(tag.text.bytes());
        known_structure(checker, tag, found)
    }
}

// A tag without a list, as the scopes have it.
fn known_structure(
    checker: &mut Checker,
    tag: &Named,
    found: Option<Tag>,
) -> Result<Option<u32>, NoMemory>
    requires { found ≡ None → find_here tag.now.text (state_of checker.old).tags ≡ None }
    ensures number { IfOk result (λ n. n ≡ (known_structure tag.now.pos tag.now.text found (state_of checker.old)).number) }
    ensures state { OnOk result (state_of checker.new ≡ (known_structure tag.now.pos tag.now.text found (state_of checker.old)).state) }
{
    match found {
        None => new_structure(checker, &tag.text),
        Some(Tag::Structure(number)) => Ok(Some(number)),
        Some(Tag::Enumeration) => twice(checker, tag.pos),
    }
}

// A tag before a list, as its scope has it: it gets one list there.
fn listed_structure(checker: &mut Checker, tag: &Named) -> Result<Option<u32>, NoMemory>
    ensures number { IfOk result (λ n. n ≡ (listed_structure tag.now.pos tag.now.text (find_here tag.now.text (state_of checker.old).tags) (state_of checker.old)).number) }
    ensures state { OnOk result (state_of checker.new ≡ (listed_structure tag.now.pos tag.now.text (find_here tag.now.text (state_of checker.old).tags) (state_of checker.old)).state) }
{
    match checker.tags.find_here(tag.text.bytes()) {
        None => new_structure(checker, &tag.text),
        Some(Tag::Structure(number)) => {
            if checker.is_begun(number) {
                twice(checker, tag.pos)
            } else {
                Ok(Some(number))
            }
        }
        Some(Tag::Enumeration) => twice(checker, tag.pos),
    }
}

/// Behind the tag, where there is one.
pub fn step_tag(checker: &mut Checker, tag: &Option<Named>)
    ensures { state_of checker.new ≡ steps (tag_tokens tag.now) (state_of checker.old) }
{
    match tag {
        None => checker.steps(0),
        Some(_) => checker.steps(1),
    }
}

/// The tag of an enumeration, behind its key; `listed` says that a list of enumerators follows.
pub fn enumeration(checker: &mut Checker, listed: bool, tag: &Option<Named>) -> Result<(), NoMemory>
    ensures { OnOk result (state_of checker.new ≡ enumeration listed tag.now (state_of checker.old)) }
{
    match (tag, listed) {
        (None, _) => Ok(()),
        (Some(tag), true) => listed_enumeration(checker, tag),
        (Some(tag), false) => known_enumeration(checker, tag),
    }
}

// A tag with a list is new in its scope.
fn listed_enumeration(checker: &mut Checker, tag: &Named) -> Result<(), NoMemory>
    ensures { OnOk result (state_of checker.new ≡ listed_enumeration tag.now.pos tag.now.text (find_here tag.now.text (state_of checker.old).tags) (state_of checker.old)) }
{
    match checker.tags.find_here(tag.text.bytes()) {
        None => checker.tags.declare(tag.text.bytes(), Tag::Enumeration),
        Some(_) => checker.complain(DECLARED_TWICE, checker.at, tag.pos),
    }
}

// A tag without a list names an enumeration that was declared.
fn known_enumeration(checker: &mut Checker, tag: &Named) -> Result<(), NoMemory>
    ensures { OnOk result (state_of checker.new ≡ known_enumeration tag.now.pos (find tag.now.text (state_of checker.old).tags) (state_of checker.old)) }
{
    match checker.tags.find(tag.text.bytes()) {
        Some(Tag::Enumeration) => Ok(()),
        Some(Tag::Structure(_)) => checker.complain(DECLARED_TWICE, checker.at, tag.pos),
        None => checker.complain(UNKNOWN_NAME, checker.at, tag.pos),
    }
}
