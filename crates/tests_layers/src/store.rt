//! Worked steps of the store.

use c_store::store::Store;
use c_store::value::{Fault, MakeErr, Order, Pointer, Value};
use std::test::Fail;

// The element of an array of so many cells, from an instance's first.
fn at(instance: u64, length: u32, index: u32) -> Pointer {
    Pointer {
        instance,
        base: 0,
        length,
        size: 1,
        index,
    }
}

/// A literal in a store of four cells.
#[test]
fn literal(rt: HostRuntime) -> Result<(), Fail> {
    let alloc = rt.alloc();
    let mut store = Store::new(alloc, 4);
    assert_eq!(rt; store.make_literal(b"ab".as_slice()), Ok(1));
    assert_eq!(rt; store.live(), 3);
    assert_eq!(rt; store.read(at(1, 3, 1)), Ok(Value::Int(98)));
    assert_eq!(rt; store.read(at(1, 3, 2)), Ok(Value::Int(0)));
    assert_eq!(rt;
        store.write(at(1, 3, 0), Value::Int(1)),
        Err(Fault::WriteLiteral)
    );
    assert_eq!(rt;
        store.step_pointer(Value::At(at(1, 3, 0)), 3),
        Ok(Value::At(at(1, 3, 3)))
    );
    assert_eq!(rt;
        store.step_pointer(Value::At(at(1, 3, 0)), 4),
        Err(Fault::OutOfBounds)
    );
    assert_eq!(rt;
        store.step_pointer(Value::At(at(1, 3, 3)), i128::MIN),
        Err(Fault::OutOfBounds)
    );
    let mut small = Store::new(alloc, 2);
    assert_eq!(rt; small.make_literal(b"ab".as_slice()), Err(MakeErr::Room));
    Ok(())
}

/// Two cells that are made, written, compared and ended.
#[test]
fn two_cells(rt: HostRuntime) -> Result<(), Fail> {
    let alloc = rt.alloc();
    let mut store = Store::new(alloc, 3);
    assert_eq!(rt; store.make(2), Ok(1));
    let first = at(1, 2, 0);
    let second = at(1, 2, 1);
    assert_eq!(rt; store.read(second), Err(Fault::Uninitialised));
    assert_eq!(rt; store.write(second, Value::Null), Ok(()));
    assert_eq!(rt; store.read(second), Ok(Value::Null));
    assert_eq!(rt;
        store.select(Pointer { size: 2, ..first }, 1, 1, 1),
        Ok(Pointer {
            base: 1,
            length: 1,
            ..first
        })
    );
    assert_eq!(rt;
        store.compare(Order::Lt, Value::At(first), Value::At(second)),
        Ok(true)
    );
    assert_eq!(rt;
        store.difference(Value::At(first), Value::At(second)),
        Ok(-1)
    );
    assert_eq!(rt;
        store.difference(Value::Null, Value::At(second)),
        Err(Fault::Null)
    );
    assert_eq!(rt; store.read(at(2, 2, 0)), Err(Fault::Dangling));
    Ok(())
}
