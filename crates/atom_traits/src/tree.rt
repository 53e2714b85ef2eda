ghost use Rattle.std.specs.Prelude.{◌≡◌, true, IfOk, length};
ghost use Rattle.atom_traits.specs.Form.{Asks, Ends, form, forms, guard_holds, leaf_word, port_word, source_word, word_of, words_of};
ghost use Rattle.atom_traits.specs.Tests.{all_within, guard_below, is_within, leaf_below, port_below, source_below, tree_below, trees_below};
ghost use Rattle.atom_traits.specs.Tests.{guard_within, leaf_within, port_within, source_within, tree_within};

use dom_words::{Memory, signed};
use std::alloc::Global;

/// What an atom reads: a word, or the number of a container.
#[derive(Clone, Copy, Debug, PartialEq, Eq)]
pub enum Port {
    Const(u32),
    Container(u32),
}

/// What a guard compares: a word, the number of a container, or the number of an old word.
#[derive(Clone, Copy, Debug, PartialEq, Eq)]
pub enum Source {
    Const(u32),
    Container(u32),
    State(u32),
}

/// The signed order, or equality.
#[derive(Clone, Copy, Debug, PartialEq, Eq)]
pub enum Rel {
    Lt,
    Eq,
}

/// A question.
#[derive(Clone, Copy, Debug, PartialEq, Eq)]
pub struct Guard {
    pub rel: Rel,
    pub left: Source,
    pub right: Source,
}

/// What becomes of a word: it stays, is replaced, or has something added or taken away.
#[derive(Clone, Copy, Debug, PartialEq, Eq)]
pub enum Leaf {
    Keep,
    Put(Port),
    Add(Port),
    Sub(Port),
}

/// A leaf, or a fork on a question.
#[derive(Drop)]
pub enum Tree {
    Leaf(Leaf),
    Fork {
        guard: Guard,
        yes: Box<Tree>,
        no: Box<Tree>,
    },
}

/// The trees of one or two slots.
#[derive(Drop)]
pub struct Trees {
    pub first: Tree,
    pub second: Option<Tree>,
}

/// Whether a constant has at most so many bits, read as a signed number.
pub(crate) fn has_bits(word: u32, bits: u32) -> bool
    ensures { result ≡ is_within bits word }
{
    if bits == 0 {
        false
    } else if bits >= 32 {
        true
    } else {
        let half = 1u32 << (bits - 1);
        word < half || word >= 0u32.wrapping_sub(half)
    }
}

pub(crate) fn port_has_bits(port: Port, bits: u32) -> bool
    ensures { result ≡ port_within bits port }
{
    match port {
        Port::Const(word) => has_bits(word, bits),
        Port::Container(_) => true,
    }
}

fn source_has_bits(source: Source, bits: u32) -> bool
    ensures { result ≡ source_within bits source }
{
    match source {
        Source::Const(word) => has_bits(word, bits),
        Source::Container(_) => true,
        Source::State(_) => true,
    }
}

fn leaf_has_bits(leaf: Leaf, bits: u32) -> bool
    ensures { result ≡ leaf_within bits leaf }
{
    match leaf {
        Leaf::Keep => true,
        Leaf::Put(port) => port_has_bits(port, bits),
        Leaf::Add(port) => port_has_bits(port, bits),
        Leaf::Sub(port) => port_has_bits(port, bits),
    }
}

fn tree_has_bits(tree: &Tree, bits: u32) -> bool
    ensures { result ≡ tree_within bits (form tree.now) }
{
    match tree {
        Tree::Leaf(leaf) => leaf_has_bits(*leaf, bits),
        Tree::Fork { guard, yes, no } => {
            source_has_bits(guard.left, bits)
                && source_has_bits(guard.right, bits)
                && tree_has_bits(yes, bits)
                && tree_has_bits(no, bits)
        }
    }
}

/// Whether all constants of guards and leaves have at most so many bits.
pub fn constants_within(trees: &Trees, bits: u32) -> bool
    ensures { result ≡ all_within bits (forms trees.now) }
{
    match &trees.second {
        None => tree_has_bits(&trees.first, bits),
        Some(second) => tree_has_bits(&trees.first, bits) && tree_has_bits(second, bits),
    }
}

/// The word of a port.
pub(crate) fn port_value(port: Port, words: &[u32]) -> u32
    requires { port_below (length words.now) port ≡ true }
    ensures { result ≡ port_word port words.now }
{
    match port {
        Port::Const(word) => word,
        Port::Container(at) => words[at as usize],
    }
}

fn source_value(source: Source, old: [u32; 2], words: &[u32]) -> u32
    requires { source_below (length words.now) source ≡ true }
    ensures { result ≡ source_word source old words.now }
{
    match source {
        Source::Const(word) => word,
        Source::Container(at) => words[at as usize],
        Source::State(0) => old[0],
        Source::State(_) => old[1],
    }
}

/// Whether a guard holds on the old words and the containers.
pub(crate) fn holds(guard: Guard, old: [u32; 2], words: &[u32]) -> bool
    requires { guard_below (length words.now) guard ≡ true }
    ensures { result ≡ guard_holds guard old words.now }
{
    let left = source_value(guard.left, old, words);
    let right = source_value(guard.right, old, words);
    match guard.rel {
        Rel::Lt => signed(left) < signed(right),
        Rel::Eq => left == right,
    }
}

/// What a leaf makes of its slot's old word.
pub(crate) fn run_leaf(leaf: Leaf, own: u32, words: &[u32]) -> u32
    requires { leaf_below (length words.now) leaf ≡ true }
    ensures { result ≡ leaf_word leaf own words.now }
{
    match leaf {
        Leaf::Keep => own,
        Leaf::Put(port) => port_value(port, words),
        Leaf::Add(port) => own.wrapping_add(port_value(port, words)),
        Leaf::Sub(port) => own.wrapping_sub(port_value(port, words)),
    }
}

fn run_tree(tree: &Tree, own: u32, old: [u32; 2], words: &[u32]) -> u32
    requires { tree_below (length words.now) (form tree.now) ≡ true }
    ensures { result ≡ word_of (form tree.now) own old words.now }
{
    match tree {
        Tree::Leaf(leaf) => run_leaf(*leaf, own, words),
        Tree::Fork { guard, yes, no } => {
            if holds(*guard, old, words) {
                run_tree(yes, own, old, words)
            } else {
                run_tree(no, own, old, words)
            }
        }
    }
}

/// What trees make of the old words. A word without a tree stays.
pub fn run_trees(trees: &Trees, old: [u32; 2], words: &[u32]) -> [u32; 2]
    requires { trees_below (length words.now) (forms trees.now) ≡ true }
    ensures { result ≡ words_of (forms trees.now) old words.now }
{
    match &trees.second {
        None => [run_tree(&trees.first, old[0], old, words), old[1]],
        Some(second) => {
            let first = run_tree(&trees.first, old[0], old, words);
            [first, run_tree(second, old[1], old, words)]
        }
    }
}

/// A fork of two leaves.
pub(crate) fn fork(alloc: Global, guard: Guard, yes: Leaf, no: Leaf) -> Result<Tree, Memory>
    ensures { IfOk result (λ t. form t ≡ Asks guard (Ends yes) (Ends no)) }
{
    let yes = Box::new(alloc, Tree::Leaf(yes)).map_err(|_| Memory)?;
    let no = Box::new(alloc, Tree::Leaf(no)).map_err(|_| Memory)?;
    Ok(Tree::Fork { guard, yes, no })
}

fn copy(alloc: Global, tree: &Tree) -> Result<Tree, Memory>
    ensures { IfOk result (λ t. form t ≡ form tree.now) }
{
    match tree {
        Tree::Leaf(leaf) => Ok(Tree::Leaf(*leaf)),
        Tree::Fork { guard, yes, no } => {
            let yes = Box::new(alloc, copy(alloc, yes)?).map_err(|_| Memory)?;
            let no = Box::new(alloc, copy(alloc, no)?).map_err(|_| Memory)?;
            Ok(Tree::Fork {
                guard: *guard,
                yes,
                no,
            })
        }
    }
}

/// A copy of trees.
pub fn copy_trees(alloc: Global, trees: &Trees) -> Result<Trees, Memory>
    ensures { IfOk result (λ t. forms t ≡ forms trees.now) }
{
    let first = copy(alloc, &trees.first)?;
    let second = match &trees.second {
        None => None,
        Some(tree) => Some(copy(alloc, tree)?),
    };
    Ok(Trees { first, second })
}
