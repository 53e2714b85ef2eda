ghost use Rattle.std.specs.Prelude.{◌≡◌, slice_set};
ghost use Rattle.dom_ast.specs.Resolved.{form};
ghost use Rattle.ssa_names.specs.Naming.{operand_form};
ghost use Rattle.ssa_names.specs.inner.Tables.{at as operand_at};

use dom_ast::Part;

/// What stands for a name: a word, an entered field, or the value of an item.
#[derive(Clone, Copy, Debug, PartialEq, Eq)]
pub enum Operand {
    Number(u32),
    Field(u32),
    Made(u32),
}

/// The operand as an expression.
pub fn part(operand: Operand) -> Part
    ensures { form result ≡ operand_form operand }
{
    match operand {
        Operand::Number(word) => Part::Number(word),
        Operand::Field(k) => Part::Field(k),
        Operand::Made(k) => Part::Made(k),
    }
}

/// Operand `k`; the number 0 where there is none.
pub fn at(operands: &[Operand], k: u32) -> Operand
    ensures { result ≡ operand_at operands.now k }
{
    match operands.get(k as usize) {
        Some(operand) => *operand,
        None => Operand::Number(0),
    }
}

/// Another operand in place `k`, where there is one.
#[tactic(auto, using(std::proofs::lemmas::List::set_past))]
pub fn put(operands: &mut [Operand], k: u32, operand: Operand)
    ensures { operands.new ≡ slice_set operands.old k operand }
{
    let k = k as usize;
    if k < operands.len() {
        operands[k] = operand;
    }
}
