use dom_flat::{Line, Operand, eval_one};
use dom_words::{BinOp, FnvUnits, HashName, Seq, UnOp};
use std::test::Fail;

#[test]
fn words_of_statements(rt: HostRuntime) -> Result<(), Fail> {
    let x = Operand::Value(0);
    let zero = Operand::Value(1);
    let negated = Line::Un {
        op: UnOp::Neg,
        a: x,
    };
    let difference = Line::Bin {
        op: BinOp::Sub,
        a: x,
        b: Operand::Const(9),
    };
    let choice = Line::Cond {
        c: zero,
        a: x,
        b: Operand::Const(5),
    };
    assert_eq!(rt;
        eval_one(&negated, [7, 0].as_slice(), &FnvUnits),
        0xffff_fff9
    );
    assert_eq!(rt;
        eval_one(&difference, [7, 0].as_slice(), &FnvUnits),
        0xffff_fffe
    );
    assert_eq!(rt; eval_one(&choice, [7, 0].as_slice(), &FnvUnits), 5);
    Ok(())
}

#[test]
fn words_of_hashes(rt: HostRuntime) -> Result<(), Fail> {
    let mut one = Seq::new(rt.alloc());
    one.push(Operand::Value(1))?;
    let mut two = Seq::new(rt.alloc());
    two.push(Operand::Value(0))?;
    two.push(Operand::Const(2))?;
    let whole = Line::Hash {
        unit: HashName { args: 1, letter: 0 },
        modulus: 0,
        args: one,
    };
    let modulo = Line::Hash {
        unit: HashName { args: 2, letter: 1 },
        modulus: 1000,
        args: two,
    };
    assert_eq!(rt; eval_one(&whole, [1, 0].as_slice(), &FnvUnits), 303091727);
    assert_eq!(rt; eval_one(&modulo, [1, 0].as_slice(), &FnvUnits), 615);
    Ok(())
}
