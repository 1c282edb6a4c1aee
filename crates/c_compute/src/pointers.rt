// Steps, distances and comparisons of pointers (C89, 3.3.6, 3.3.8 and 3.3.9), which need no store.

ghost use Rattle.std.specs.Prelude.{◌≡◌, ◌+◌, ◌<◌, ◌^◌, neg_ℤ};
ghost use Rattle.c_store.specs.declared.value.Value.TheVariants.{At};
ghost use Rattle.c_store.specs.Cells.{cell_of, stepped, differed, compared, is_same, is_one_array};

use c_store::value::{Fault, Order, Pointer, Value};

/// The pointer as many elements further on, from its array's first to one past its last: else out of bounds. What is no
/// pointer is a null one (C89, 3.3.6).
#[inline(always)]
pub fn stepped(from: Value, by: i128) -> Result<Value, Fault>
    ensures { result ≡ stepped from by }
{
    match from {
        Value::At(at) => stepped_at(at, by),
        Value::Null | Value::Int(_) => Err(Fault::Null),
    }
}

/// The same as many elements back.
#[inline(always)]
pub fn stepped_back(from: Value, by: i128) -> Result<Value, Fault>
    ensures { result ≡ stepped from (neg_ℤ by) }
{
    match from {
        Value::At(at) => stepped_at_back(at, by),
        Value::Null | Value::Int(_) => Err(Fault::Null),
    }
}

#[inline(always)]
fn stepped_at(at: Pointer, by: i128) -> Result<Value, Fault>
    ensures { result ≡ stepped (At at) by }
{
    let index = i128::from(at.index);
    if by < -index || by > i128::from(at.length) - index {
        return Err(Fault::OutOfBounds);
    }
    Ok(Value::At(Pointer {
        index: (index + by) as u32,
        ..at
    }))
}

#[inline(always)]
fn stepped_at_back(at: Pointer, by: i128) -> Result<Value, Fault>
    ensures { result ≡ stepped (At at) (neg_ℤ by) }
{
    let index = i128::from(at.index);
    if by > index || by < index - i128::from(at.length) {
        return Err(Fault::OutOfBounds);
    }
    Ok(Value::At(Pointer {
        index: (index - by) as u32,
        ..at
    }))
}

/// How many elements of one array the left pointer stands behind the right one (C89, 3.3.6). What is no pointer is a null one.
pub fn differed(a: Value, b: Value) -> Result<i128, Fault>
    ensures { result ≡ differed a b }
{
    match (a, b) {
        (Value::At(p), Value::At(q)) => {
            if is_one_array(p, q) {
                Ok(i128::from(p.index) - i128::from(q.index))
            } else {
                Err(Fault::OtherArray)
            }
        }
        _ => Err(Fault::Null),
    }
}

/// Compares two pointers (C89, 3.3.8 and 3.3.9): `==` and `!=` their cells, the others their places in one array.
pub fn compared(order: Order, a: Value, b: Value) -> Result<bool, Fault>
    ensures { result ≡ compared order a b }
{
    match order {
        Order::Lt => Ok(differed(a, b)? < 0),
        Order::Gt => Ok(differed(a, b)? > 0),
        Order::Le => Ok(differed(a, b)? <= 0),
        Order::Ge => Ok(differed(a, b)? >= 0),
        Order::Eq => Ok(is_same(a, b)),
        Order::Ne => Ok(!is_same(a, b)),
    }
}

// The pointers go through one array.
fn is_one_array(p: Pointer, q: Pointer) -> bool
    ensures { result ≡ is_one_array p q }
{
    p.instance == q.instance && p.base == q.base && p.length == q.length && p.size == q.size
}

// Both are null, or both stand at one cell of one instance.
fn is_same(a: Value, b: Value) -> bool
    ensures { result ≡ is_same a b }
{
    match (a, b) {
        (Value::Null, Value::Null) => true,
        (Value::At(p), Value::At(q)) => p.instance == q.instance && cell_of(p) == cell_of(q),
        _ => false,
    }
}

// The cell that the pointer stands at, counted from its instance's first.
fn cell_of(at: Pointer) -> u64
    ensures { result ≡ cell_of at }
{
    u64::from(at.base) + u64::from(at.index) * u64::from(at.size)
}
