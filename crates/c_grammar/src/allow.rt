//! What may stand where a declarator stands.

ghost use Rattle.std.specs.Prelude.{◌≡◌};
ghost use Rattle.c_syntax.specs.Shaped.{is_in_names, may_be_open, name_fits, may_begin, is_there};
ghost use Rattle.c_syntax.specs.View.{decl_form_shape};
ghost use Rattle.c_grammar.specs.CodeView.{standing_of};

use crate::look::Standing;
use c_syntax::tree::{DeclForm, Named};

/// Functions may be declared here, and declarations may have no declarator.
pub fn among_names(standing: Standing) -> bool
    ensures { result ≡ is_in_names (standing_of standing) }
{
    match standing {
        Standing::Names => true,
        Standing::Members | Standing::Params => false,
    }
}

/// An array's length may be left out here.
pub fn is_free(standing: Standing) -> bool
    ensures { result ≡ may_be_open (standing_of standing) }
{
    match standing {
        Standing::Members => false,
        Standing::Names | Standing::Params => true,
    }
}

/// The name of a declarator here may be this one.
pub fn is_fit(standing: Standing, name: &Option<Named>) -> bool
    ensures { result ≡ name_fits (standing_of standing) name.now }
{
    match standing {
        Standing::Members => match name {
            Some(named) => named.probe.is_none(),
            None => false,
        },
        Standing::Names => match name {
            Some(_) => true,
            None => false,
        },
        Standing::Params => true,
    }
}

/// An initialiser may stand behind a declarator here, behind whose name this stands.
pub fn is_begun(standing: Standing, form: &DeclForm) -> bool
    ensures { result ≡ may_begin (standing_of standing) (decl_form_shape form.now) }
{
    match form {
        DeclForm::Arrays(_) => among_names(standing),
        DeclForm::Function(_) => false,
    }
}

/// A tag is there.
pub fn has_name(name: &Option<Named>) -> bool
    ensures { result ≡ is_there name.now }
{
    match name {
        Some(_) => true,
        None => false,
    }
}
