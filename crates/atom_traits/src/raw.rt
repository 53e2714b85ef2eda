ghost use Rattle.std.specs.Prelude.{◌≡◌, true, false, MatchOption};
ghost use Rattle.atom_traits.specs.Fits.{is_raw, raw_fits, raw_form};
ghost use Rattle.atom_traits.specs.FitsLaws.{fits_states, fits_within, raw_few, raw_fits_blind};
ghost use Rattle.atom_traits.specs.Form.{forms};
ghost use Rattle.atom_traits.specs.Raw.{leaf_trees, raw_leaf, raw_trees};

use crate::template::AtomTemplate;
use crate::tree::{Leaf, Port, Tree, Trees, port_has_bits, run_trees};
use dom_words::Memory;
use std::alloc::Global;

/// What Raw does to its word.
#[derive(Clone, Copy, Debug, PartialEq, Eq)]
pub enum RawOp {
    Keep,
    Put(Port),
    Add(Port),
}

/// The parameters of Raw.
#[derive(Drop)]
pub struct RawParams<const K: u32> {
    op: RawOp,
    ghost fits: { raw_fits K (raw_trees op) ≡ true },
}

/// A leaf that keeps, puts or adds.
pub struct Raw<const K: u32>;

impl<const K: u32> AtomTemplate for Raw<K> {
    const STATES: usize = 1;

    const CONST_BITS: u32 = K;

    type Params = RawParams<K>;

    ghost STATES = { 1 };

    ghost CONST_BITS = { K };

    ghost fits = { raw_fits K };

    ghost trees_of = { λ p. raw_trees p.op };

    fn fit(_alloc: Global, trees: &Trees) -> Result<Option<RawParams<K>>, Memory> {
        if trees.second.is_some() {
            return Ok(None);
        }
        match &trees.first {
            Tree::Leaf(leaf) => match raw_op(*leaf, K) {
                Some(op) => Ok(Some(RawParams { op })),
                None => Ok(None),
            },
            Tree::Fork { .. } => Ok(None),
        }
    }

    fn shown(_alloc: Global, params: &RawParams<K>) -> Result<Trees, Memory> {
        Ok(single(params.op))
    }

    fn exec(params: &RawParams<K>, old: [u32; 2], words: &[u32]) -> [u32; 2] {
        run_trees(&single(params.op), old, words)
    }

    ghost fitted = { λ p. p.fits };

    ghost blind = { λ f t. raw_fits_blind f K t };

    ghost within = { fits_within raw_form K };

    ghost own = { fits_states raw_form K };

    ghost few = { raw_few K };
}

/// What Raw does for a leaf of its own.
pub(crate) fn raw_of(leaf: Leaf) -> Option<RawOp>
    ensures { MatchOption result (is_raw leaf ≡ false) (λ op. raw_leaf op ≡ leaf) }
{
    match leaf {
        Leaf::Keep => Some(RawOp::Keep),
        Leaf::Put(port) => Some(RawOp::Put(port)),
        Leaf::Add(port) => Some(RawOp::Add(port)),
        Leaf::Sub(_) => None,
    }
}

// What Raw does for a leaf, where it is one of Raw's with constants of so many bits.
fn raw_op(leaf: Leaf, bits: u32) -> Option<RawOp>
    ensures { MatchOption result (raw_fits bits (leaf_trees leaf) ≡ false) (λ op. (raw_fits bits (raw_trees op) ≡ true) × (raw_trees op ≡ leaf_trees leaf)) }
{
    match leaf {
        Leaf::Keep => Some(RawOp::Keep),
        Leaf::Put(port) if port_has_bits(port, bits) => Some(RawOp::Put(port)),
        Leaf::Add(port) if port_has_bits(port, bits) => Some(RawOp::Add(port)),
        _ => None,
    }
}

/// The leaf that Raw's work is.
pub(crate) fn leaf_of(op: RawOp) -> Leaf
    ensures { result ≡ raw_leaf op }
{
    match op {
        RawOp::Keep => Leaf::Keep,
        RawOp::Put(port) => Leaf::Put(port),
        RawOp::Add(port) => Leaf::Add(port),
    }
}

fn single(op: RawOp) -> Trees
    ensures { forms result ≡ raw_trees op }
{
    Trees {
        first: Tree::Leaf(leaf_of(op)),
        second: None,
    }
}
