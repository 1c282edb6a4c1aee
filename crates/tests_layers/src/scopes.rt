//! Names in scopes.

use c_scopes::scopes::Scopes;
use std::test::Fail;

#[derive(Clone, Copy, Debug, PartialEq, Eq)]
enum Tag {
    Structure(u32),
    Enumeration,
}

// Whether the name was free in the innermost scope; then it is declared.
fn declare(tags: &mut Scopes<Tag>, name: &[u8], tag: Tag) -> Result<bool, Fail> {
    match tags.find_here(name) {
        Some(_) => Ok(false),
        None => {
            tags.declare(name, tag)?;
            Ok(true)
        }
    }
}

// Whether a name is that tag, in the innermost scope that has it, or in the innermost of all.
fn finds(tags: &Scopes<Tag>, name: &[u8], wanted: Option<Tag>) -> bool {
    tags.find(name) == wanted
}

fn finds_here(tags: &Scopes<Tag>, name: &[u8], wanted: Option<Tag>) -> bool {
    tags.find_here(name) == wanted
}

fn opened(tags: &mut Scopes<Tag>) -> Result<(), Fail> {
    tags.enter()?;
    Ok(())
}

#[test]
fn tags_in_two_scopes(rt: HostRuntime) -> Result<(), Fail> {
    let mut tags = Scopes::new(rt.alloc());
    assert!(rt; declare(&mut tags, b"s", Tag::Structure(1))?);
    assert!(rt; declare(&mut tags, b"st", Tag::Enumeration)?);
    assert!(rt; !declare(&mut tags, b"s", Tag::Enumeration)?);
    opened(&mut tags)?;
    assert!(rt; finds(&tags, b"s", Some(Tag::Structure(1))));
    assert!(rt; finds_here(&tags, b"s", None));
    assert!(rt; declare(&mut tags, b"s", Tag::Structure(2))?);
    assert!(rt; finds(&tags, b"s", Some(Tag::Structure(2))));
    assert!(rt; finds(&tags, b"st", Some(Tag::Enumeration)));
    assert!(rt; finds(&tags, b"t", None));
    assert!(rt; !tags.is_outermost());
    tags.leave();
    assert!(rt; finds(&tags, b"s", Some(Tag::Structure(1))));
    assert!(rt; tags.is_outermost());
    Ok(())
}
