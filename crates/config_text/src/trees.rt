ghost use Rattle.std.specs.Prelude.{◌≡◌, IfOk};
ghost use Rattle.std.specs.Option.{option_map};
ghost use Rattle.atom_traits.specs.Form.{form};
ghost use Rattle.config_text.specs.Reading.{fork_rest, guard_rest, port_rest, tree_from, tree_key, whole_tree};
ghost use Rattle.config_text.specs.Views.{guard_form, port_form, rest_form, tree_key_of};

use crate::numbers::{port, rel, source};
use atom_traits::{Guard, Leaf, Port, Tree};
use dom_words::{Memory, Name};
use std::alloc::Global;

/// What a tree begins with.
#[derive(Clone, Copy)]
pub(crate) enum TreeStart {
    Keep,
    Put,
    Add,
    Sub,
    Fork,
}

fn tree_start(word: &[u8]) -> Option<TreeStart>
    ensures { option_map tree_key_of result ≡ tree_key word.now }
{
    if word == b"keep".as_slice() {
        Some(TreeStart::Keep)
    } else if word == b"put".as_slice() {
        Some(TreeStart::Put)
    } else if word == b"add".as_slice() {
        Some(TreeStart::Add)
    } else if word == b"sub".as_slice() {
        Some(TreeStart::Sub)
    } else if word == b"if".as_slice() {
        Some(TreeStart::Fork)
    } else {
        None
    }
}

// A port, and the words after it.
fn first_port<'a>(words: &'a [Name]) -> Option<(Port, &'a [Name])>
    ensures { option_map port_form result ≡ port_rest words.entry.now }
{
    match words {
        [] => None,
        [word, rest @ ..] => match port(word.as_bytes()) {
            None => None,
            Some(port) => Some((port, rest)),
        },
    }
}

// A relation and two sources, and the words after them.
fn first_guard<'a>(words: &'a [Name]) -> Option<(Guard, &'a [Name])>
    ensures { option_map guard_form result ≡ guard_rest words.entry.now }
{
    match words {
        [] => None,
        [_] => None,
        [_, _] => None,
        [relation, left, right, rest @ ..] => match rel(relation.as_bytes()) {
            None => None,
            Some(rel) => match source(left.as_bytes()) {
                None => None,
                Some(left) => match source(right.as_bytes()) {
                    None => None,
                    Some(right) => Some((Guard { rel, left, right }, rest)),
                },
            },
        },
    }
}

// A tree of at most so many levels of questions, and the words after it.
#[cycle(trees)]
fn first_tree<'a>(
    alloc: Global,
    words: &'a [Name],
    levels: u32,
) -> Result<Option<(Tree, &'a [Name])>, Memory>
    ensures { IfOk result (λ o. option_map rest_form o ≡ tree_from levels words.entry.now) }
{
    match words {
        [] => Ok(None),
        [word, rest @ ..] => match tree_start(word.as_bytes()) {
            None => Ok(None),
            Some(start) => match start {
                TreeStart::Keep => Ok(Some((Tree::Leaf(Leaf::Keep), rest))),
                TreeStart::Put => match first_port(rest) {
                    None => Ok(None),
                    Some((port, rest)) => Ok(Some((Tree::Leaf(Leaf::Put(port)), rest))),
                },
                TreeStart::Add => match first_port(rest) {
                    None => Ok(None),
                    Some((port, rest)) => Ok(Some((Tree::Leaf(Leaf::Add(port)), rest))),
                },
                TreeStart::Sub => match first_port(rest) {
                    None => Ok(None),
                    Some((port, rest)) => Ok(Some((Tree::Leaf(Leaf::Sub(port)), rest))),
                },
                TreeStart::Fork => {
                    if levels == 0 {
                        Ok(None)
                    } else {
                        first_fork(alloc, rest, levels - 1)
                    }
                }
            },
        },
    }
}

// A question and its two branches, and the words after them.
#[cycle(trees)]
fn first_fork<'a>(
    alloc: Global,
    words: &'a [Name],
    levels: u32,
) -> Result<Option<(Tree, &'a [Name])>, Memory>
    ensures { IfOk result (λ o. option_map rest_form o ≡ fork_rest (tree_from levels) words.entry.now) }
{
    match first_guard(words) {
        None => Ok(None),
        Some((guard, after)) => match first_tree(alloc, after, levels)? {
            None => Ok(None),
            Some((yes, then)) => match first_tree(alloc, then, levels)? {
                None => Ok(None),
                Some((no, rest)) => {
                    let yes = Box::new(alloc, yes).map_err(|_| Memory)?;
                    let no = Box::new(alloc, no).map_err(|_| Memory)?;
                    Ok(Some((Tree::Fork { guard, yes, no }, rest)))
                }
            },
        },
    }
}

/// The tree that words spell, with at most two levels of questions.
pub(crate) fn tree(alloc: Global, words: &[Name]) -> Result<Option<Tree>, Memory>
    ensures { IfOk result (λ o. option_map form o ≡ whole_tree words.now) }
{
    match first_tree(alloc, words, 2)? {
        None => Ok(None),
        Some((tree, rest)) => {
            if rest.is_empty() {
                Ok(Some(tree))
            } else {
                Ok(None)
            }
        }
    }
}
