//! Worked values of the arithmetic.

use c_arith::{ArithBinary, ArithFault, ArithUnary, binary, convert, unary};
use c_base::place::IntKind;

#[test]
fn gives_the_worked_values(rt: HostRuntime) {
    assert_eq!(rt; convert(300, IntKind::Char), 44);
    assert_eq!(rt; convert(-1, IntKind::UInt), 4_294_967_295);
    assert_eq!(rt; binary(ArithBinary::Div, IntKind::Int, -7, 2), Ok(-3));
    assert_eq!(rt; binary(ArithBinary::Rem, IntKind::Int, -7, 2), Ok(-1));
    assert_eq!(rt; binary(ArithBinary::Shr, IntKind::Int, -1, 1), Ok(-1));
    assert_eq!(rt;
        binary(ArithBinary::Shl, IntKind::Int, 1, 31),
        Ok(-2_147_483_648)
    );
    assert_eq!(rt;
        binary(ArithBinary::Div, IntKind::Int, -2_147_483_648, -1),
        Err(ArithFault::Overflow)
    );
    assert_eq!(rt;
        unary(ArithUnary::Minus, IntKind::UInt, 1),
        Ok(4_294_967_295)
    );
}
