ghost use Rattle.std.specs.Prelude.{◌≡◌, length, map, true};
ghost use Rattle.atom_traits.specs.Form.{port_word};
ghost use Rattle.atom_traits.specs.Operation.{needs_multiplier as multiplier_needed, operation_below, operation_has_args, stateless_word};
ghost use Rattle.atom_traits.specs.Tests.{port_below, ports_below};

use crate::tree::{Port, port_value};
use dom_words::{BinOp, HashName, HashUnits, Seq, UnOp, apply_bin, apply_un, choose, reduce};

/// Ports in order.
pub type Ports = Seq<Port>;

/// What an atom without state does: one operator on words and containers. `Cond` gives `a` where `c` is not 0, else `b`.
/// `Hash` gives the hash unit's answer modulo `modulus`, or the answer itself where `modulus` is 0.
#[derive(Debug, Drop)]
pub enum StatelessOp {
    Un {
        op: UnOp,
        a: Port,
    },
    Bin {
        op: BinOp,
        a: Port,
        b: Port,
    },
    Cond {
        c: Port,
        a: Port,
        b: Port,
    },
    Hash {
        unit: HashName,
        modulus: u32,
        args: Ports,
    },
}

/// What an atom without state makes of the containers. Each container that it names is there, and a hash has as many
/// arguments as its unit says. Takes no memory.
pub fn apply_stateless<H: HashUnits>(op: &StatelessOp, words: &[u32], hash: &H) -> u32
    requires containers { operation_below (length words.now) op.now ≡ true }
    requires args { operation_has_args op.now ≡ true }
    ensures { result ≡ stateless_word (H.meaning hash.now) op.now words.now }
{
    match op {
        StatelessOp::Un { op, a } => apply_un(*op, port_value(*a, words)),
        StatelessOp::Bin { op, a, b } => {
            apply_bin(*op, port_value(*a, words), port_value(*b, words))
        }
        StatelessOp::Cond { c, a, b } => choose(
            port_value(*c, words),
            port_value(*a, words),
            port_value(*b, words),
        ),
        StatelessOp::Hash {
            unit,
            modulus,
            args,
        } => reduce(hash_word(*unit, args.as_slice(), words, hash), *modulus),
    }
}

/// Whether an operator needs a multiplier: `*`, `/` and `%` do. A hash needs none, whatever its modulus.
pub fn needs_multiplier(op: &StatelessOp) -> bool
    ensures { result ≡ multiplier_needed op.now }
{
    match op {
        StatelessOp::Bin { op, .. } => matches!(op, BinOp::Mul | BinOp::Div | BinOp::Rem),
        _ => false,
    }
}

// A hash unit's answer for ports.
fn hash_word<H: HashUnits>(unit: HashName, args: &[Port], words: &[u32], hash: &H) -> u32
    requires args { length args.now ≡ unit.args }
    requires containers { ports_below (length words.now) args.now ≡ true }
    ensures { result ≡ H.meaning hash.now unit (map (λ a. port_word a words.now) args.now) }
{
    let mut values = [0; 4];
    for (k, arg) in args.iter().enumerate() {
        values[k] = port_value(*arg, words);
    }
    hash.apply(unit, &values[..args.len()])
}
