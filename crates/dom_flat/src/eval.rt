ghost use Rattle.std.specs.Prelude.{◌≡◌, [], ◌∷◌, false, length, map, slice_index, true};
ghost use Rattle.dom_flat.specs.Kept.{are_below, has_its_args, is_below};
ghost use Rattle.dom_flat.specs.Lines.{is_flank, operands_of};
ghost use Rattle.dom_flat.specs.Meaning.{line_word, operand_word};

use crate::line::{Line, Operand};
use dom_words::{HashName, HashUnits, apply_bin, apply_un, choose, reduce};

/// The word that a statement which is no flank makes, where `values` has the words of the values so far. Takes no memory.
pub fn eval_one<H: HashUnits>(line: &Line, values: &[u32], hash: &H) -> u32
    requires flank { is_flank line.now ≡ false }
    requires args { has_its_args line.now ≡ true }
    requires range { are_below (length values.now) (operands_of line.now) ≡ true }
    ensures { result ≡ line_word (H.meaning hash.now) line.now [] (slice_index values.now) }
{
    match line {
        Line::Fetch { .. } | Line::Store { .. } => unreachable!(),
        Line::Un { op, a } => apply_un(*op, word(*a, values)),
        Line::Bin { op, a, b } => apply_bin(*op, word(*a, values), word(*b, values)),
        Line::Cond { c, a, b } => choose(word(*c, values), word(*a, values), word(*b, values)),
        Line::Hash {
            unit,
            modulus,
            args,
        } => reduce(hash_word(*unit, args.as_slice(), values, hash), *modulus),
    }
}

// The word of an operand.
fn word(operand: Operand, values: &[u32]) -> u32
    requires { is_below (length values.now) operand ≡ true }
    ensures { result ≡ operand_word operand (slice_index values.now) }
{
    match operand {
        Operand::Const(word) => word,
        Operand::Value(value) => values[value as usize],
    }
}

// A hash unit's answer for operands.
fn hash_word<H: HashUnits>(unit: HashName, args: &[Operand], values: &[u32], hash: &H) -> u32
    requires args { length args.now ≡ unit.args }
    requires range { are_below (length values.now) args.now ≡ true }
    ensures { result ≡ H.meaning hash.now unit (map (λ a. operand_word a (slice_index values.now)) args.now) }
{
    let mut words = [0; 4];
    for (k, arg) in args.iter().enumerate() {
        words[k] = word(*arg, values);
    }
    hash.apply(unit, &words[..args.len()])
}
