// What an array takes its length from.

ghost use Rattle.std.specs.Prelude.{◌≡◌, map};
ghost use Rattle.c_syntax.specs.View.{expr_shape, init_shape, maybe_init};
ghost use Rattle.c_tree.specs.Initialisers.{kept, length_in_form, length_in, lengths_with};
ghost use Rattle.c_checker_parts.specs.LengthView.{length_shape};

use c_checker_parts::lengths::Length;
use c_syntax::tree::{Expr, Init};

/// An array takes its first length, where that is left out, from its initialiser (C89, 3.5.7).
pub fn lengths_with(init: &Option<Init>, lengths: &mut Vec<Length>)
    ensures { map length_shape lengths.new.items ≡ lengths_with (maybe_init init.now) (map length_shape lengths.old.items) }
{
    if let Some(init) = init {
        if let Some(Length::LeftOut) = lengths.first() {
            lengths[0] = length_in(init);
        }
    }
}

// The bytes of a string and its zero, or the items of a list.
#[tactic(auto, using(crate::proofs::Counts::length_in_list))]
fn length_in(init: &Init) -> Length
    ensures { length_shape result ≡ length_in (init_shape init.now) }
{
    match init {
        Init::One(node) => length_in_form(&node.form),
        Init::List(_, items, _) => kept(items.len()),
    }
}

// The bytes of a string and its zero.
fn length_in_form(form: &Expr) -> Length
    ensures { length_shape result ≡ length_in_form (expr_shape form.now) }
{
    match form {
        Expr::Str(text) => kept(text.len() as usize + 1),
        _ => Length::LeftOut,
    }
}

// So many, up to the greatest number of 32 bits.
fn kept(count: usize) -> Length
    ensures { length_shape result ≡ kept count }
{
    Length::Counted(count.min(4_294_967_295) as u32)
}
