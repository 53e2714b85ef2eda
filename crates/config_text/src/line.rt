ghost use Rattle.std.specs.Prelude.{◌≡◌, ◌+◌, ◌≤◌, ◌∷◌, [], IfOk, drop, length, take, true};
ghost use Rattle.std.specs.List.{list_all};
ghost use Rattle.std.specs.Option.{option_map};
ghost use Rattle.config_text.specs.Reader.{comma_size, word_at};
ghost use Rattle.config_text.specs.Reading.{array_line, atom_line, bin_line, cond_line, hash_line, line_by, line_from, line_of_words, ports_from, slot_line, split, un_line};
ghost use Rattle.config_text.specs.Views.{first_key, line_form, wants_one};
ghost use Rattle.config_text.specs.Words.{is_target_byte, is_target_word};

use crate::draft::Line;
use crate::first::{First, first_of};
use crate::numbers::{bin_op, container, count, modulus, option, port, un_op, version, word};
use crate::trees::tree;
use atom_traits::{Ports, StatelessOp};
use banzai_config::{OpAtom, PartSlot};
use dom_words::{Array, HashName, Memory, Name, Seq, is_name};
use std::alloc::Global;

/// The bytes from a place on.
pub(crate) fn tail(text: &[u8], at: usize) -> &[u8]
    requires { at ≤ length text.now }
    ensures { result.now ≡ drop at text.now }
{
    &text[at..]
}

/// The first `n` bytes.
pub(crate) fn front(text: &[u8], n: usize) -> &[u8]
    requires { n ≤ length text.now }
    ensures { result.now ≡ take n text.now }
{
    &text[..n]
}

#[tactic(auto, using(crate::proofs::Cursors::size_within))]
fn word_size(line: &[u8], at: usize) -> usize
    requires { at ≤ length line.now }
    ensures value { result ≡ comma_size line.now at }
    ensures within { at + result ≤ length line.now }
{
    tail(line, at).iter().take_while(|b| **b != b',').count()
}

// The bytes up to the next comma.
fn word_bytes(line: &[u8], at: usize) -> &[u8]
    requires { at ≤ length line.now }
    ensures { result.now ≡ word_at line.now at }
{
    front(tail(line, at), word_size(line, at))
}

// The words between the commas.
fn words_of(alloc: Global, line: &[u8]) -> Result<Seq<Name>, Memory>
    ensures { IfOk result (λ words. words ≡ split line.now) }
{
    let mut words = Seq::new(alloc);
    let mut at = 0;
    'words: while at <= line.len() {
        let size = word_size(line, at);
        let word = Name::of(alloc, word_bytes(line, at))?;
        words.push(word)?;
        at += size + 1;
    }
    Ok(words)
}

fn are_target_bytes(word: &[u8]) -> bool
    ensures { result ≡ list_all is_target_byte word.now }
{
    word.iter().all(|b| b.is_ascii_lowercase() || *b == b'-')
}

fn may_name_target(word: &[u8]) -> bool
    ensures { result ≡ is_target_word word.now }
{
    match word {
        [] => false,
        [_, ..] => are_target_bytes(word),
    }
}

// The ports that words spell.
fn ports(alloc: Global, words: &[Name]) -> Result<Option<Ports>, Memory>
    ensures { IfOk result (λ o. o ≡ ports_from words.now) }
{
    let mut ports = Seq::new(alloc);
    'words: for word in words {
        match port(word.as_bytes()) {
            None => return Ok(None),
            Some(port) => ports.push(port)?,
        }
    }
    Ok(Some(ports))
}

fn array(alloc: Global, name: &[u8], length: &[u8], init: &[u8]) -> Result<Option<Line>, Memory>
    ensures { IfOk result (λ o. option_map line_form o ≡ array_line name.now length.now init.now) }
{
    if is_name(name) {
        match count(length) {
            None => Ok(None),
            Some(length) => match word(init) {
                None => Ok(None),
                Some(init) => Ok(Some(Line::Array(Array {
                    name: Name::of(alloc, name)?,
                    length,
                    init,
                }))),
            },
        }
    } else {
        Ok(None)
    }
}

fn un(to: &[u8], op: &[u8], a: &[u8]) -> Option<Line>
    ensures { option_map line_form result ≡ un_line to.now op.now a.now }
{
    match container(to) {
        None => None,
        Some(to) => match un_op(op) {
            None => None,
            Some(op) => match port(a) {
                None => None,
                Some(a) => Some(Line::Op(OpAtom {
                    to,
                    op: StatelessOp::Un { op, a },
                })),
            },
        },
    }
}

fn bin(to: &[u8], op: &[u8], a: &[u8], b: &[u8]) -> Option<Line>
    ensures { option_map line_form result ≡ bin_line to.now op.now a.now b.now }
{
    match container(to) {
        None => None,
        Some(to) => match bin_op(op) {
            None => None,
            Some(op) => match port(a) {
                None => None,
                Some(a) => match port(b) {
                    None => None,
                    Some(b) => Some(Line::Op(OpAtom {
                        to,
                        op: StatelessOp::Bin { op, a, b },
                    })),
                },
            },
        },
    }
}

fn cond(to: &[u8], c: &[u8], a: &[u8], b: &[u8]) -> Option<Line>
    ensures { option_map line_form result ≡ cond_line to.now c.now a.now b.now }
{
    match container(to) {
        None => None,
        Some(to) => match port(c) {
            None => None,
            Some(c) => match port(a) {
                None => None,
                Some(a) => match port(b) {
                    None => None,
                    Some(b) => Some(Line::Op(OpAtom {
                        to,
                        op: StatelessOp::Cond { c, a, b },
                    })),
                },
            },
        },
    }
}

fn hash(alloc: Global, words: &[Name]) -> Result<Option<Line>, Memory>
    ensures { IfOk result (λ o. option_map line_form o ≡ hash_line words.now) }
{
    match words {
        [] => Ok(None),
        [_] => Ok(None),
        [_, _] => Ok(None),
        [to, unit, modulo, args @ ..] => match container(to.as_bytes()) {
            None => Ok(None),
            Some(to) => match HashName::named(unit.as_bytes()) {
                None => Ok(None),
                Some(unit) => match modulus(modulo.as_bytes()) {
                    None => Ok(None),
                    Some(modulus) => match ports(alloc, args)? {
                        None => Ok(None),
                        Some(args) => {
                            if args.len() == unit.args as usize {
                                Ok(Some(Line::Op(OpAtom {
                                    to,
                                    op: StatelessOp::Hash {
                                        unit,
                                        modulus,
                                        args,
                                    },
                                })))
                            } else {
                                Ok(None)
                            }
                        }
                    },
                },
            },
        },
    }
}

fn slot(alloc: Global, words: &[Name]) -> Result<Option<Line>, Memory>
    ensures { IfOk result (λ o. option_map line_form o ≡ slot_line words.now) }
{
    match words {
        [] => Ok(None),
        [_] => Ok(None),
        [_, _] => Ok(None),
        [_, _, _] => Ok(None),
        [array, index, old, new, rest @ ..] => match count(array.as_bytes()) {
            None => Ok(None),
            Some(array) => match port(index.as_bytes()) {
                None => Ok(None),
                Some(index) => match option(old.as_bytes()) {
                    None => Ok(None),
                    Some(old) => match option(new.as_bytes()) {
                        None => Ok(None),
                        Some(new) => match tree(alloc, rest)? {
                            None => Ok(None),
                            Some(tree) => Ok(Some(Line::Slot(
                                PartSlot {
                                    array,
                                    index,
                                    old,
                                    new,
                                },
                                tree,
                            ))),
                        },
                    },
                },
            },
        },
    }
}

fn atom(number: u32) -> Option<Line>
    ensures { option_map line_form result ≡ atom_line number }
{
    if 1 <= number && number <= 2 {
        Some(Line::Atom(number))
    } else {
        None
    }
}

// The line of a first word after which one word stands.
fn one_word_line(alloc: Global, first: First, word: &[u8]) -> Result<Option<Line>, Memory>
    requires { wants_one first ≡ true }
    ensures { IfOk result (λ o. option_map line_form o ≡ line_by (first_key first) (word.now ∷ [])) }
{
    match first {
        First::Head => match version(word) {
            None => Ok(None),
            Some(version) => Ok(Some(Line::Head(version))),
        },
        First::Target => {
            if may_name_target(word) {
                Ok(Some(Line::Target(Name::of(alloc, word)?)))
            } else {
                Ok(None)
            }
        }
        First::Field => {
            if is_name(word) {
                Ok(Some(Line::Field(Name::of(alloc, word)?)))
            } else {
                Ok(None)
            }
        }
        First::Containers => match count(word) {
            None => Ok(None),
            Some(number) => Ok(Some(Line::Containers(number))),
        },
        First::Stage => match count(word) {
            None => Ok(None),
            Some(number) => Ok(Some(Line::Stage(number))),
        },
        First::Atom => match count(word) {
            None => Ok(None),
            Some(number) => Ok(atom(number)),
        },
        First::Out => match port(word) {
            None => Ok(None),
            Some(port) => Ok(Some(Line::Out(port))),
        },
        First::Array => unreachable!(),
        First::Un => unreachable!(),
        First::Bin => unreachable!(),
        First::Cond => unreachable!(),
        First::Hash => unreachable!(),
        First::Slot => unreachable!(),
        First::End => unreachable!(),
    }
}

fn other_line(alloc: Global, first: First, words: &[Name]) -> Result<Option<Line>, Memory>
    requires { wants_one first ≡ true }
    ensures { IfOk result (λ o. option_map line_form o ≡ line_by (first_key first) words.now) }
{
    match words {
        [word] => one_word_line(alloc, first, word.as_bytes()),
        _ => Ok(None),
    }
}

// The line of a first word and the words after it.
fn line_after(alloc: Global, first: First, words: &[Name]) -> Result<Option<Line>, Memory>
    ensures { IfOk result (λ o. option_map line_form o ≡ line_by (first_key first) words.now) }
{
    match first {
        First::Array => match words {
            [name, length, init] => {
                array(alloc, name.as_bytes(), length.as_bytes(), init.as_bytes())
            }
            _ => Ok(None),
        },
        First::Un => match words {
            [to, op, a] => Ok(un(to.as_bytes(), op.as_bytes(), a.as_bytes())),
            _ => Ok(None),
        },
        First::Bin => match words {
            [to, op, a, b] => { Ok(bin(to.as_bytes(), op.as_bytes(), a.as_bytes(), b.as_bytes())) }
            _ => Ok(None),
        },
        First::Cond => match words {
            [to, c, a, b] => Ok(cond(to.as_bytes(), c.as_bytes(), a.as_bytes(), b.as_bytes())),
            _ => Ok(None),
        },
        First::Hash => hash(alloc, words),
        First::Slot => slot(alloc, words),
        First::End => match words {
            [] => Ok(Some(Line::End)),
            _ => Ok(None),
        },
        First::Head => other_line(alloc, First::Head, words),
        First::Target => other_line(alloc, First::Target, words),
        First::Field => other_line(alloc, First::Field, words),
        First::Containers => other_line(alloc, First::Containers, words),
        First::Stage => other_line(alloc, First::Stage, words),
        First::Atom => other_line(alloc, First::Atom, words),
        First::Out => other_line(alloc, First::Out, words),
    }
}

// The line that words mean.
fn line_with(alloc: Global, words: &[Name]) -> Result<Option<Line>, Memory>
    ensures { IfOk result (λ o. option_map line_form o ≡ line_of_words words.now) }
{
    match words {
        [] => Ok(None),
        [word, rest @ ..] => match first_of(word.as_bytes()) {
            None => Ok(None),
            Some(first) => line_after(alloc, first, rest),
        },
    }
}

/// The line that bytes mean, without its line feed.
pub(crate) fn line_of(alloc: Global, bytes: &[u8]) -> Result<Option<Line>, Memory>
    ensures { IfOk result (λ o. option_map line_form o ≡ line_from bytes.now) }
{
    let words = words_of(alloc, bytes)?;
    line_with(alloc, words.as_slice())
}
