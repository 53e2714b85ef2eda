ghost use Rattle.std.specs.Prelude.{◌≡◌, ◌∷◌, ◌++◌, OnOk, map, true};
ghost use Rattle.std.specs.Fmt.{decimal};
ghost use Rattle.std.specs.List.{list_all};
ghost use Rattle.atom_traits.specs.Form.{form};
ghost use Rattle.atom_traits.specs.Tests.{guard_passes, leaf_passes};
ghost use Rattle.dom_words.specs.Units.{unit_text};
ghost use Rattle.config_text.specs.Small.{is_source_small};
ghost use Rattle.config_text.specs.Words.{bin_text, container_text, leaf_words, option_fits, option_text, port_fits, port_text, rel_text, source_text, un_text, version_text, word_text};
ghost use Rattle.config_text.specs.Writer.{guard_bytes, is_tree_small, tree_bytes, with_commas};

use atom_traits::{Guard, Leaf, Port, Rel, Source, Tree};
use banzai_config::Version;
use dom_words::{BinOp, HashName, Memory, UnOp};
use itoa::Buffer;

/// Bytes at the end of a text.
pub(crate) fn add(bytes: &[u8], text: &mut Vec<u8>) -> Result<(), Memory>
    ensures { OnOk result (text.new.items ≡ text.old.items ++ bytes.now) }
{
    text.extend_from_slice(bytes).map_err(|_| Memory)?;
    Ok(())
}

/// A number in decimals.
pub(crate) fn add_number(number: u64, text: &mut Vec<u8>) -> Result<(), Memory>
    ensures { OnOk result (text.new.items ≡ text.old.items ++ decimal number) }
{
    let mut digits = Buffer::new();
    add(digits.format(number).as_bytes(), text)
}

/// A word as a signed number in decimals.
pub(crate) fn add_signed(word: u32, text: &mut Vec<u8>) -> Result<(), Memory>
    ensures { OnOk result (text.new.items ≡ text.old.items ++ word_text word) }
{
    if word < 2147483648 {
        add_number(u64::from(word), text)
    } else {
        add(b"-", text)?;
        add_number(4294967296 - u64::from(word), text)
    }
}

/// A word of a line behind its comma.
pub(crate) fn add_word(word: &[u8], text: &mut Vec<u8>) -> Result<(), Memory>
    ensures { OnOk result (text.new.items ≡ text.old.items ++ 44 ∷ word.now) }
{
    add(b",", text)?;
    add(word, text)
}

/// A count behind its comma.
pub(crate) fn add_count(number: u64, text: &mut Vec<u8>) -> Result<(), Memory>
    ensures { OnOk result (text.new.items ≡ text.old.items ++ 44 ∷ decimal number) }
{
    add(b",", text)?;
    add_number(number, text)
}

/// A word in signed decimals behind its comma.
pub(crate) fn add_signed_word(word: u32, text: &mut Vec<u8>) -> Result<(), Memory>
    ensures { OnOk result (text.new.items ≡ text.old.items ++ 44 ∷ word_text word) }
{
    add(b",", text)?;
    add_signed(word, text)
}

/// A container behind its comma.
pub(crate) fn add_container(number: u32, text: &mut Vec<u8>) -> Result<(), Memory>
    ensures { OnOk result (text.new.items ≡ text.old.items ++ 44 ∷ container_text number) }
{
    add(b",c", text)?;
    add_number(u64::from(number), text)
}

fn add_constant(word: u32, text: &mut Vec<u8>) -> Result<(), Memory>
    ensures { OnOk result (text.new.items ≡ text.old.items ++ 44 ∷ 35 ∷ word_text word) }
{
    add(b",#", text)?;
    add_signed(word, text)
}

/// A port behind its comma.
pub(crate) fn add_port(port: Port, text: &mut Vec<u8>) -> Result<(), Memory>
    ensures text { OnOk result (text.new.items ≡ text.old.items ++ 44 ∷ port_text port) }
    ensures small { OnOk result (port_fits port ≡ true) }
{
    match port {
        Port::Const(word) => add_constant(word, text),
        Port::Container(number) => add_container(number, text),
    }
}

/// Ports, each behind its comma.
pub(crate) fn add_ports(ports: &[Port], text: &mut Vec<u8>) -> Result<(), Memory>
    ensures text { OnOk result (text.new.items ≡ text.old.items ++ with_commas (map port_text ports.now)) }
    ensures small { OnOk result (list_all port_fits ports.now ≡ true) }
{
    for port in ports {
        add_port(*port, text)?;
    }
    Ok(())
}

/// A container behind its comma, or `-`.
pub(crate) fn add_option(container: Option<u32>, text: &mut Vec<u8>) -> Result<(), Memory>
    ensures text { OnOk result (text.new.items ≡ text.old.items ++ 44 ∷ option_text container) }
    ensures small { OnOk result (option_fits container ≡ true) }
{
    match container {
        None => add_word(b"-", text),
        Some(number) => add_container(number, text),
    }
}

fn add_source(source: Source, text: &mut Vec<u8>) -> Result<(), Memory>
    ensures text { OnOk result (text.new.items ≡ text.old.items ++ 44 ∷ source_text source) }
    ensures small { OnOk result (is_source_small source ≡ true) }
{
    match source {
        Source::Const(word) => add_constant(word, text),
        Source::Container(number) => add_container(number, text),
        Source::State(number) => {
            add(b",s", text)?;
            add_number(u64::from(number), text)
        }
    }
}

/// The name of an operator on one operand.
pub(crate) fn un_name(op: UnOp) -> &'static str
    ensures { result.now ≡ un_text op }
{
    match op {
        UnOp::Neg => "neg",
        UnOp::Inv => "inv",
        UnOp::Not => "not",
    }
}

/// The name of an operator on two operands.
pub(crate) fn bin_name(op: BinOp) -> &'static str
    ensures { result.now ≡ bin_text op }
{
    match op {
        BinOp::Mul => "mul",
        BinOp::Div => "div",
        BinOp::Rem => "rem",
        BinOp::Add => "add",
        BinOp::Sub => "sub",
        BinOp::Shl => "shl",
        BinOp::Shr => "shr",
        BinOp::Lt => "lt",
        BinOp::Le => "le",
        BinOp::Gt => "gt",
        BinOp::Ge => "ge",
        BinOp::Eq => "eq",
        BinOp::Ne => "ne",
        BinOp::BitAnd => "and",
        BinOp::BitXor => "xor",
        BinOp::BitOr => "or",
        BinOp::And => "land",
        BinOp::Or => "lor",
    }
}

/// The name of a version.
pub(crate) fn version_name(version: Version) -> &'static str
    ensures { result.now ≡ version_text version }
{
    match version {
        Version::One => "1",
        Version::Two => "2",
    }
}

fn rel_name(rel: Rel) -> &'static str
    ensures { result.now ≡ rel_text rel }
{
    match rel {
        Rel::Lt => "lt",
        Rel::Eq => "eq",
    }
}

/// The name of a hash unit behind its comma.
#[tactic(auto, using(crate::proofs::Written::letter_some))]
pub(crate) fn add_unit(unit: HashName, text: &mut Vec<u8>) -> Result<(), Memory>
    ensures { OnOk result (text.new.items ≡ text.old.items ++ 44 ∷ unit_text unit) }
{
    add(b",hash", text)?;
    add(&[b'0' + unit.args], text)?;
    if unit.letter == 0 {
        Ok(())
    } else {
        add(&[b'a' - 1 + unit.letter], text)
    }
}

fn add_leaf(leaf: Leaf, text: &mut Vec<u8>) -> Result<(), Memory>
    ensures text { OnOk result (text.new.items ≡ text.old.items ++ with_commas (leaf_words leaf)) }
    ensures small { OnOk result (leaf_passes port_fits is_source_small leaf ≡ true) }
{
    match leaf {
        Leaf::Keep => add_word(b"keep", text),
        Leaf::Put(port) => {
            add_word(b"put", text)?;
            add_port(port, text)
        }
        Leaf::Add(port) => {
            add_word(b"add", text)?;
            add_port(port, text)
        }
        Leaf::Sub(port) => {
            add_word(b"sub", text)?;
            add_port(port, text)
        }
    }
}

fn add_guard(guard: Guard, text: &mut Vec<u8>) -> Result<(), Memory>
    ensures text { OnOk result (text.new.items ≡ text.old.items ++ guard_bytes guard) }
    ensures small { OnOk result (guard_passes port_fits is_source_small guard ≡ true) }
{
    add_word(b"if", text)?;
    add_word(rel_name(guard.rel).as_bytes(), text)?;
    add_source(guard.left, text)?;
    add_source(guard.right, text)
}

/// A tree, each of its words behind a comma.
pub(crate) fn add_tree(tree: &Tree, text: &mut Vec<u8>) -> Result<(), Memory>
    ensures text { OnOk result (text.new.items ≡ text.old.items ++ tree_bytes (form tree.now)) }
    ensures small { OnOk result (is_tree_small (form tree.now) ≡ true) }
{
    match tree {
        Tree::Leaf(leaf) => add_leaf(*leaf, text),
        Tree::Fork { guard, yes, no } => {
            add_guard(*guard, text)?;
            add_tree(yes, text)?;
            add_tree(no, text)
        }
    }
}
