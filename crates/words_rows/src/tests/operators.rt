use dom_words::{BinOp, UnOp, apply_bin, apply_un, choose, element};
use std::test::Fail;

// Two operands and what the operator gives on them, read with a sign.
const PAIRS: [(BinOp, i32, i32, i32); 25] = [
    (BinOp::Div, -7, 2, -3),
    (BinOp::Rem, -7, 2, -1),
    (BinOp::Div, 5, 0, 0),
    (BinOp::Rem, 5, 0, 0),
    (BinOp::Div, i32::MIN, -1, i32::MIN),
    (BinOp::Rem, i32::MIN, -1, 0),
    (BinOp::Add, -1, 2, 1),
    (BinOp::Sub, 0, 1, -1),
    (BinOp::Mul, i32::MIN, 2, 0),
    (BinOp::Shl, 1, 33, 2),
    (BinOp::Shr, -8, 1, -4),
    (BinOp::Shr, -8, 32, -8),
    (BinOp::Lt, -1, 0, 1),
    (BinOp::Le, 0, 0, 1),
    (BinOp::Gt, -1, 0, 0),
    (BinOp::Ge, 0, -1, 1),
    (BinOp::Eq, 3, 3, 1),
    (BinOp::Ne, 3, 3, 0),
    (BinOp::BitAnd, 12, 10, 8),
    (BinOp::BitXor, 12, 10, 6),
    (BinOp::BitOr, 12, 10, 14),
    (BinOp::And, 2, 1, 1),
    (BinOp::And, 2, 0, 0),
    (BinOp::Or, 0, 4, 1),
    (BinOp::Or, 0, 0, 0),
];

// An operand and what the operator gives on it, read with a sign.
const SINGLES: [(UnOp, i32, i32); 5] = [
    (UnOp::Neg, 7, -7),
    (UnOp::Neg, i32::MIN, i32::MIN),
    (UnOp::Inv, 0, -1),
    (UnOp::Not, 0, 1),
    (UnOp::Not, 2, 0),
];

#[test]
fn pairs(rt: HostRuntime) -> Result<(), Fail> {
    for (op, a, b, word) in PAIRS {
        let found = apply_bin(op, a.cast_unsigned(), b.cast_unsigned());
        assert_eq!(rt; found.cast_signed(), word);
    }
    Ok(())
}

#[test]
fn singles(rt: HostRuntime) -> Result<(), Fail> {
    for (op, a, word) in SINGLES {
        assert_eq!(rt; apply_un(op, a.cast_unsigned()).cast_signed(), word);
    }
    Ok(())
}

#[test]
fn choices_and_elements(rt: HostRuntime) -> Result<(), Fail> {
    assert_eq!(rt; choose(2, 5, 6), 5);
    assert_eq!(rt; choose(0, 5, 6), 6);
    assert_eq!(rt; element(u32::MAX, 8), 7);
    Ok(())
}
