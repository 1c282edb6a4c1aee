//! Copies of labels.

ghost use Rattle.std.specs.Prelude.{◌≡◌, map, IfOk};
ghost use Rattle.c_syntax.specs.View.{label_shape};

use crate::parts::{boxed, put_inner};
use crate::tree::copy_node;
use c_base::place::NoMemory;
use c_syntax::tree::Label;
use std::alloc::Global;

fn copy_label(alloc: Global, label: &Label) -> Result<Box<Label>, NoMemory>
    ensures { IfOk result (λ l. label_shape l.value ≡ label_shape label.now) }
{
    match label {
        Label::Case(pos, node) => {
            let node = copy_node(alloc, node)?;
            boxed(alloc, Label::Case(*pos, Box::into_inner(node)))
        }
        Label::Default(pos) => boxed(alloc, Label::Default(*pos)),
    }
}

/// Copies of the labels of a statement.
pub fn copy_labels(alloc: Global, labels: &[Label]) -> Result<Vec<Label>, NoMemory>
    ensures { IfOk result (λ copies. map label_shape copies.items ≡ map label_shape labels.now) }
{
    let mut copies = Vec::new(alloc);
    for label in labels {
        let copied = copy_label(alloc, label)?;
        put_inner(&mut copies, copied)?;
    }
    Ok(copies)
}
