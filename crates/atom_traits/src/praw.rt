ghost use Rattle.std.specs.Prelude.{◌≡◌, ◌&&◌, true, false, MatchOption};
ghost use Rattle.atom_traits.specs.Form.{Asks, Ends, form, forms};
ghost use Rattle.atom_traits.specs.Fits.{is_low, is_raw, keeps_a_side, praw_fits, praw_form};
ghost use Rattle.atom_traits.specs.FitsLaws.{fits_states, fits_within, praw_blind, praw_few};
ghost use Rattle.atom_traits.specs.Praw.{praw_tree, praw_trees};

use crate::raw::{RawOp, leaf_of, raw_of};
use crate::shapes::fit_praw;
use crate::template::AtomTemplate;
use crate::tree::{Guard, Leaf, Tree, Trees, fork, holds, run_leaf};
use dom_words::Memory;
use std::alloc::Global;

/// What Praw does to its word.
#[derive(Clone, Copy, Debug, PartialEq, Eq)]
pub enum PrawOp {
    Always(RawOp),
    /// Where the guard holds; else the word stays.
    Where(Guard, RawOp),
    /// Where the guard does not hold; else the word stays.
    Unless(Guard, RawOp),
}

/// The parameters of Praw.
#[derive(Drop)]
pub struct PrawParams<const K: u32> {
    op: PrawOp,
    ghost fits: { praw_fits K (praw_trees op) ≡ true },
}

/// A leaf of Raw, or a fork of two of them of which one keeps.
pub struct Praw<const K: u32>;

impl<const K: u32> AtomTemplate for Praw<K> {
    const STATES: usize = 1;

    const CONST_BITS: u32 = K;

    type Params = PrawParams<K>;

    ghost STATES = { 1 };

    ghost CONST_BITS = { K };

    ghost fits = { praw_fits K };

    ghost trees_of = { λ p. praw_trees p.op };

    fn fit(_alloc: Global, trees: &Trees) -> Result<Option<PrawParams<K>>, Memory> {
        match fitted_op(trees, K) {
            Some(op) => Ok(Some(PrawParams { op })),
            None => Ok(None),
        }
    }

    fn shown(alloc: Global, params: &PrawParams<K>) -> Result<Trees, Memory> {
        let first = match params.op {
            PrawOp::Always(op) => Tree::Leaf(leaf_of(op)),
            PrawOp::Where(guard, op) => fork(alloc, guard, leaf_of(op), Leaf::Keep)?,
            PrawOp::Unless(guard, op) => fork(alloc, guard, Leaf::Keep, leaf_of(op))?,
        };
        Ok(Trees {
            first,
            second: None,
        })
    }

    fn exec(params: &PrawParams<K>, old: [u32; 2], words: &[u32]) -> [u32; 2] {
        let first = match params.op {
            PrawOp::Always(op) => run_leaf(leaf_of(op), old[0], words),
            PrawOp::Where(guard, op) => {
                if holds(guard, old, words) {
                    run_leaf(leaf_of(op), old[0], words)
                } else {
                    old[0]
                }
            }
            PrawOp::Unless(guard, op) => {
                if holds(guard, old, words) {
                    old[0]
                } else {
                    run_leaf(leaf_of(op), old[0], words)
                }
            }
        };
        [first, old[1]]
    }

    ghost fitted = { λ p. p.fits };

    ghost blind = { λ f t. praw_blind f K t };

    ghost within = { fits_within praw_form K };

    ghost own = { fits_states praw_form K };

    ghost few = { praw_few K };
}

// What Praw does for a fork of two leaves, where they are Raw's and one keeps.
fn forked(guard: Guard, yes: Leaf, no: Leaf) -> Option<PrawOp>
    ensures { MatchOption result ((is_low is_raw 1 (Asks guard (Ends yes) (Ends no)) && keeps_a_side (Asks guard (Ends yes) (Ends no))) ≡ false) (λ op. praw_tree op ≡ Asks guard (Ends yes) (Ends no)) }
{
    match (raw_of(yes), raw_of(no)) {
        (Some(op), Some(RawOp::Keep)) => Some(PrawOp::Where(guard, op)),
        (Some(RawOp::Keep), Some(op)) => Some(PrawOp::Unless(guard, op)),
        _ => None,
    }
}

// What Praw does for a tree of its form.
fn praw_op(tree: &Tree) -> Option<PrawOp>
    ensures { MatchOption result ((is_low is_raw 1 (form tree.now) && keeps_a_side (form tree.now)) ≡ false) (λ op. praw_tree op ≡ form tree.now) }
{
    match tree {
        Tree::Leaf(leaf) => match raw_of(*leaf) {
            Some(op) => Some(PrawOp::Always(op)),
            None => None,
        },
        Tree::Fork { guard, yes, no } => match (&**yes, &**no) {
            (Tree::Leaf(yes), Tree::Leaf(no)) => forked(*guard, *yes, *no),
            _ => None,
        },
    }
}

// What Praw does for trees that fit it.
fn fitted_op(trees: &Trees, bits: u32) -> Option<PrawOp>
    ensures { MatchOption result (praw_fits bits (forms trees.now) ≡ false) (λ op. (praw_fits bits (praw_trees op) ≡ true) × (praw_trees op ≡ forms trees.now)) }
{
    if fit_praw(trees, bits) {
        praw_op(&trees.first)
    } else {
        None
    }
}
