ghost use Rattle.std.specs.Prelude.{◌≡◌, true, false, MatchOption};
ghost use Rattle.atom_traits.specs.Form.{Asks, Ends, form, forms};
ghost use Rattle.atom_traits.specs.Fits.{if_else_fits, if_else_form, is_low, is_raw};
ghost use Rattle.atom_traits.specs.FitsLaws.{fits_states, fits_within, if_else_blind, if_else_few};
ghost use Rattle.atom_traits.specs.Praw.{if_else_tree, if_else_trees};

use crate::raw::{RawOp, leaf_of, raw_of};
use crate::shapes::fit_if_else;
use crate::template::AtomTemplate;
use crate::tree::{Guard, Leaf, Tree, Trees, fork, holds, run_leaf};
use dom_words::Memory;
use std::alloc::Global;

/// What IfElse does to its word: one thing, or one of two by a guard.
#[derive(Clone, Copy, Debug, PartialEq, Eq)]
pub enum IfElseOp {
    Always(RawOp),
    Either { guard: Guard, yes: RawOp, no: RawOp },
}

/// The parameters of IfElse.
#[derive(Drop)]
pub struct IfElseParams<const K: u32> {
    op: IfElseOp,
    ghost fits: { if_else_fits K (if_else_trees op) ≡ true },
}

/// At most one fork, of leaves that keep, put or add.
pub struct IfElse<const K: u32>;

impl<const K: u32> AtomTemplate for IfElse<K> {
    const STATES: usize = 1;

    const CONST_BITS: u32 = K;

    type Params = IfElseParams<K>;

    ghost STATES = { 1 };

    ghost CONST_BITS = { K };

    ghost fits = { if_else_fits K };

    ghost trees_of = { λ p. if_else_trees p.op };

    fn fit(_alloc: Global, trees: &Trees) -> Result<Option<IfElseParams<K>>, Memory> {
        match fitted_op(trees, K) {
            Some(op) => Ok(Some(IfElseParams { op })),
            None => Ok(None),
        }
    }

    fn shown(alloc: Global, params: &IfElseParams<K>) -> Result<Trees, Memory> {
        let first = match params.op {
            IfElseOp::Always(op) => Tree::Leaf(leaf_of(op)),
            IfElseOp::Either { guard, yes, no } => {
                fork(alloc, guard, leaf_of(yes), leaf_of(no))?
            }
        };
        Ok(Trees {
            first,
            second: None,
        })
    }

    fn exec(params: &IfElseParams<K>, old: [u32; 2], words: &[u32]) -> [u32; 2] {
        let first = match params.op {
            IfElseOp::Always(op) => run_leaf(leaf_of(op), old[0], words),
            IfElseOp::Either { guard, yes, no } => {
                if holds(guard, old, words) {
                    run_leaf(leaf_of(yes), old[0], words)
                } else {
                    run_leaf(leaf_of(no), old[0], words)
                }
            }
        };
        [first, old[1]]
    }

    ghost fitted = { λ p. p.fits };

    ghost blind = { λ f t. if_else_blind f K t };

    ghost within = { fits_within if_else_form K };

    ghost own = { fits_states if_else_form K };

    ghost few = { if_else_few K };
}

// What IfElse does for a fork of two leaves, where they are Raw's.
fn forked(guard: Guard, yes: Leaf, no: Leaf) -> Option<IfElseOp>
    ensures { MatchOption result (is_low is_raw 1 (Asks guard (Ends yes) (Ends no)) ≡ false) (λ op. if_else_tree op ≡ Asks guard (Ends yes) (Ends no)) }
{
    match (raw_of(yes), raw_of(no)) {
        (Some(yes), Some(no)) => Some(IfElseOp::Either { guard, yes, no }),
        _ => None,
    }
}

// What IfElse does for a tree of its form.
fn if_else_op(tree: &Tree) -> Option<IfElseOp>
    ensures { MatchOption result (is_low is_raw 1 (form tree.now) ≡ false) (λ op. if_else_tree op ≡ form tree.now) }
{
    match tree {
        Tree::Leaf(leaf) => match raw_of(*leaf) {
            Some(op) => Some(IfElseOp::Always(op)),
            None => None,
        },
        Tree::Fork { guard, yes, no } => match (&**yes, &**no) {
            (Tree::Leaf(yes), Tree::Leaf(no)) => forked(*guard, *yes, *no),
            _ => None,
        },
    }
}

// What IfElse does for trees that fit it.
fn fitted_op(trees: &Trees, bits: u32) -> Option<IfElseOp>
    ensures { MatchOption result (if_else_fits bits (forms trees.now) ≡ false) (λ op. (if_else_fits bits (if_else_trees op) ≡ true) × (if_else_trees op ≡ forms trees.now)) }
{
    if fit_if_else(trees, bits) {
        if_else_op(&trees.first)
    } else {
        None
    }
}
