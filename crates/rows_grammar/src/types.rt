// Types and declarations: `(declare int (x [3]))`.

use crate::exprs::{put_node, put_nodes};
use crate::spelled::{key_word, put_text};
use c_syntax::tree::{
    Decl, DeclForm, Declarator, Enumer, Init, Named, Param, Params, Spec, SpecForm, Star, TypeName,
};
use std::alloc::AllocError;

fn put_stars(out: &mut String, stars: &[Star]) -> Result<(), AllocError> {
    for star in stars {
        out.push('*')?;
        for _ in 0..star.consts {
            out.push('c')?;
        }
    }
    Ok(())
}

fn put_named(out: &mut String, name: &Named) -> Result<(), AllocError> {
    if let Some(mark) = &name.probe {
        out.push_str("def ")?;
        put_text(out, &mark.number)?;
        out.push(' ')?;
    }
    put_text(out, &name.text)
}

fn put_tag(out: &mut String, tag: &Option<Named>) -> Result<(), AllocError> {
    match tag {
        Some(name) => put_named(out, name),
        None => out.push('_'),
    }
}

#[cycle(phrases)]
pub fn put_type_name(out: &mut String, name: &TypeName) -> Result<(), AllocError> {
    out.push_str("(type")?;
    put_specs(out, name.specs.as_slice())?;
    put_stars(out, name.stars.as_slice())?;
    put_nodes(out, name.lengths.as_slice())?;
    out.push(')')
}

/// Each after a space.
#[cycle(phrases)]
pub fn put_specs(out: &mut String, specs: &[Spec]) -> Result<(), AllocError> {
    for spec in specs {
        out.push(' ')?;
        put_spec(out, &spec.form)?;
    }
    Ok(())
}

#[cycle(phrases)]
fn put_spec(out: &mut String, form: &SpecForm) -> Result<(), AllocError> {
    match form {
        SpecForm::Plain(key) => out.push_str(key_word(*key)),
        SpecForm::Struct(tag, members) => {
            out.push_str("(struct ")?;
            put_tag(out, tag)?;
            if let Some(members) = members {
                put_decls(out, members.as_slice())?;
            }
            out.push(')')
        }
        SpecForm::Enum(tag, rows) => {
            out.push_str("(enum ")?;
            put_tag(out, tag)?;
            if let Some(rows) = rows {
                put_rows(out, rows.as_slice())?;
            }
            out.push(')')
        }
    }
}

#[cycle(phrases)]
fn put_rows(out: &mut String, rows: &[Enumer]) -> Result<(), AllocError> {
    for row in rows {
        out.push(' ')?;
        put_named(out, &row.name)?;
        if let Some(value) = &row.value {
            out.push('=')?;
            put_node(out, value)?;
        }
    }
    Ok(())
}

/// Each after a space.
#[cycle(phrases)]
pub fn put_decls(out: &mut String, decls: &[Decl]) -> Result<(), AllocError> {
    for decl in decls {
        out.push(' ')?;
        put_decl(out, decl)?;
    }
    Ok(())
}

#[cycle(phrases)]
pub fn put_decl(out: &mut String, decl: &Decl) -> Result<(), AllocError> {
    out.push_str("(declare")?;
    put_specs(out, decl.specs.as_slice())?;
    for name in &decl.names {
        out.push(' ')?;
        put_declarator(out, name)?;
    }
    out.push(')')
}

#[cycle(phrases)]
pub fn put_declarator(out: &mut String, name: &Declarator) -> Result<(), AllocError> {
    out.push('(')?;
    put_stars(out, name.stars.as_slice())?;
    put_tag(out, &name.name)?;
    put_behind(out, &name.form)?;
    if let Some(init) = &name.init {
        out.push_str(" = ")?;
        put_init(out, init)?;
    }
    out.push(')')
}

#[cycle(phrases)]
fn put_behind(out: &mut String, form: &DeclForm) -> Result<(), AllocError> {
    match form {
        DeclForm::Arrays(lengths) => {
            for length in lengths {
                out.push_str(" [")?;
                if let Some(node) = length {
                    put_node(out, node)?;
                }
                out.push(']')?;
            }
            Ok(())
        }
        DeclForm::Function(Params::Empty) => out.push_str(" ()"),
        DeclForm::Function(Params::Void) => out.push_str(" (void)"),
        DeclForm::Function(Params::List(list)) => {
            for param in list {
                put_param(out, param)?;
            }
            Ok(())
        }
    }
}

#[cycle(phrases)]
fn put_param(out: &mut String, param: &Param) -> Result<(), AllocError> {
    out.push_str(" (param")?;
    put_specs(out, param.specs.as_slice())?;
    out.push(' ')?;
    put_declarator(out, &param.name)?;
    out.push(')')
}

#[cycle(phrases)]
fn put_init(out: &mut String, init: &Init) -> Result<(), AllocError> {
    match init {
        Init::One(node) => put_node(out, node),
        Init::List(_, list, comma) => {
            out.push_str("(list")?;
            for init in list {
                out.push(' ')?;
                put_init(out, init)?;
            }
            if *comma {
                out.push_str(" ,")?;
            }
            out.push(')')
        }
    }
}
