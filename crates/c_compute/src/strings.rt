// The cells of arrays that strings initialise (C89, 3.5.7).

ghost use Rattle.std.specs.Prelude.{◌≡◌, ◌++◌, OnOk};
ghost use Rattle.c_syntax.specs.View.{type_of};
ghost use Rattle.c_store.specs.Cells.{signed_char};
ghost use Rattle.c_meaning.specs.Constants.{char_in, string_cells};

use crate::operators::converted;
use crate::zeros::push;
use c_base::place::NoMemory;
use c_store::value::Value;
use c_syntax::tree::CType;

/// Appends so many cells of that type: the chars of a string, and zeros behind them.
pub fn push_string(
    cells: &mut Vec<Option<Value>>,
    kind: &CType,
    length: u32,
    bytes: &[u8],
) -> Result<(), NoMemory>
    ensures { OnOk result (cells.new.items ≡ cells.old.items ++ string_cells (type_of kind.now) length bytes.now) }
{
    let mut bytes = bytes;
    let mut left = length;
    while left > 0 {
        match bytes.split_first() {
            Some((byte, others)) => {
                push(cells, char_in(kind, *byte))?;
                bytes = others;
            }
            None => push(cells, Some(Value::Int(0)))?,
        }
        left -= 1;
    }
    Ok(())
}

fn char_in(kind: &CType, byte: u8) -> Option<Value>
    ensures { result ≡ char_in (type_of kind.now) byte }
{
    Some(converted(kind, Value::Int(signed_char(byte))))
}

// The char of a byte.
fn signed_char(byte: u8) -> i128
    ensures { result ≡ signed_char byte }
{
    if byte < 128 {
        i128::from(byte)
    } else {
        i128::from(byte) - 256
    }
}
