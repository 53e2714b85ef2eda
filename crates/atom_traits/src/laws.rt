//! What each template takes and how many state words it has; what fits one fits the next; and trees mean the same on
//! containers that agree where they are named.

ghost use Rattle.std.specs.Prelude.{◌≡◌, ℕ, ◌^◌, ◌<◌, ◌≤◌, Bool, true, false, List, slice_index};
ghost use Rattle.atom_traits.specs.Form.{TreesForm, forms, words_of};
ghost use Rattle.atom_traits.specs.Fits.{if_else_fits, nested_fits, pairs_fits, praw_fits, raw_fits, sub_fits, write_fits};
ghost use Rattle.atom_traits.specs.Renamed.{renamed};
ghost use Rattle.atom_traits.specs.Tests.{is_signed_within, is_within, trees_name};
ghost use Rattle.atom_traits.specs.declared.operation.StatelessOp.{StatelessOp};
ghost use Rattle.atom_traits.specs.Operation.{operation_names, operation_renamed, stateless_word};
ghost use Rattle.dom_words.specs.State.{Hash};

use crate::if_else::IfElse;
use crate::nested::Nested;
use crate::pairs::Pairs;
use crate::praw::Praw;
use crate::raw::Raw;
use crate::sub::Sub;
use crate::template::AtomTemplate;
use crate::tree::Trees;
use crate::write::Write;

/// The state words of each template: one, and two of Pairs.
pub fn templates_have_their_states<const K: u32>()
    ensures write { ⟦<Write<K> as AtomTemplate>⟧.STATES ≡ 1 }
    ensures raw { ⟦<Raw<K> as AtomTemplate>⟧.STATES ≡ 1 }
    ensures praw { ⟦<Praw<K> as AtomTemplate>⟧.STATES ≡ 1 }
    ensures if_else { ⟦<IfElse<K> as AtomTemplate>⟧.STATES ≡ 1 }
    ensures sub { ⟦<Sub<K> as AtomTemplate>⟧.STATES ≡ 1 }
    ensures nested { ⟦<Nested<K> as AtomTemplate>⟧.STATES ≡ 1 }
    ensures pairs { ⟦<Pairs<K> as AtomTemplate>⟧.STATES ≡ 2 }
{}

/// The constants of each template have K bits.
pub fn templates_have_their_bits<const K: u32>()
    ensures write { ⟦<Write<K> as AtomTemplate>⟧.CONST_BITS ≡ K }
    ensures raw { ⟦<Raw<K> as AtomTemplate>⟧.CONST_BITS ≡ K }
    ensures praw { ⟦<Praw<K> as AtomTemplate>⟧.CONST_BITS ≡ K }
    ensures if_else { ⟦<IfElse<K> as AtomTemplate>⟧.CONST_BITS ≡ K }
    ensures sub { ⟦<Sub<K> as AtomTemplate>⟧.CONST_BITS ≡ K }
    ensures nested { ⟦<Nested<K> as AtomTemplate>⟧.CONST_BITS ≡ K }
    ensures pairs { ⟦<Pairs<K> as AtomTemplate>⟧.CONST_BITS ≡ K }
{}

/// The trees that each template takes, with constants of K bits.
pub fn templates_take_their_trees<const K: u32>()
    ensures write { ⟦<Write<K> as AtomTemplate>⟧.fits ≡ write_fits K }
    ensures raw { ⟦<Raw<K> as AtomTemplate>⟧.fits ≡ raw_fits K }
    ensures praw { ⟦<Praw<K> as AtomTemplate>⟧.fits ≡ praw_fits K }
    ensures if_else { ⟦<IfElse<K> as AtomTemplate>⟧.fits ≡ if_else_fits K }
    ensures sub { ⟦<Sub<K> as AtomTemplate>⟧.fits ≡ sub_fits K }
    ensures nested { ⟦<Nested<K> as AtomTemplate>⟧.fits ≡ nested_fits K }
    ensures pairs { ⟦<Pairs<K> as AtomTemplate>⟧.fits ≡ pairs_fits K }
{}

/// Whether a word is within some bits, of which there is one at least, is asked of it as a signed number: it is at least
/// -2^(bits-1) and less than 2^(bits-1). Within 0 bits there is no word.
pub fn bits_are_signed()
    ensures none { (word : ℕ) → is_within 0 word ≡ false }
    ensures some { (bits word : ℕ) → 1 ≤ bits → word < 2 ^ 32 → is_within bits word ≡ is_signed_within bits word }
{}

/// What Write takes, Raw takes: one leaf, which keeps or puts; Raw adds too.
pub fn raw_of_write<const K: u32>(trees: &Trees)
    requires { write_fits K (forms trees.now) ≡ true }
    ensures { raw_fits K (forms trees.now) ≡ true }
{}

/// What Raw takes, Praw takes: one leaf, which keeps, puts or adds; Praw also takes a fork of two such leaves, one of which keeps.
pub fn praw_of_raw<const K: u32>(trees: &Trees)
    requires { raw_fits K (forms trees.now) ≡ true }
    ensures { praw_fits K (forms trees.now) ≡ true }
{}

/// What Praw takes, IfElse takes: a leaf, or a fork of two leaves that keep, put or add; in IfElse none has to keep.
pub fn ifelse_of_praw<const K: u32>(trees: &Trees)
    requires { praw_fits K (forms trees.now) ≡ true }
    ensures { if_else_fits K (forms trees.now) ≡ true }
{}

/// What IfElse takes, Sub takes: a leaf, or a fork of two leaves; leaves of Sub take away too.
pub fn sub_of_ifelse<const K: u32>(trees: &Trees)
    requires { if_else_fits K (forms trees.now) ≡ true }
    ensures { sub_fits K (forms trees.now) ≡ true }
{}

/// What Sub takes, Nested takes: a tree of any leaves with one level of forks at most; Nested has two.
pub fn nested_of_sub<const K: u32>(trees: &Trees)
    requires { sub_fits K (forms trees.now) ≡ true }
    ensures { nested_fits K (forms trees.now) ≡ true }
{}

/// What Nested takes, Pairs takes: one tree with two levels of forks at most; Pairs also takes two such trees, whose guards name both old words.
pub fn pairs_of_nested<const K: u32>(trees: &Trees)
    requires { nested_fits K (forms trees.now) ≡ true }
    ensures { pairs_fits K (forms trees.now) ≡ true }
{}

/// On two lists of containers that agree where trees name them, trees mean the same.
pub fn words_agree()
    ensures { (r : ℕ → Bool) (old words after : List ℕ) → ((c : ℕ) → r c ≡ true → slice_index after c ≡ slice_index words c) → (t : TreesForm) → trees_name r t ≡ true → words_of t old after ≡ words_of t old words }
{}

/// Renamed trees mean on moved containers what they meant before.
pub fn words_move()
    ensures { (f : ℕ → ℕ) (r : ℕ → Bool) (old words after : List ℕ) → ((c : ℕ) → r c ≡ true → slice_index after (f c) ≡ slice_index words c) → (t : TreesForm) → trees_name r t ≡ true → words_of (renamed f t) old after ≡ words_of t old words }
{}

/// On two lists of containers that agree where an operator names them, it gives the same.
pub fn operations_agree()
    ensures { (hash : Hash) (r : ℕ → Bool) (words after : List ℕ) → ((c : ℕ) → r c ≡ true → slice_index after c ≡ slice_index words c) → (op : StatelessOp) → operation_names r op ≡ true → stateless_word hash op after ≡ stateless_word hash op words }
{}

/// A renamed operator gives on moved containers what it gave before.
pub fn operations_move()
    ensures { (hash : Hash) (f : ℕ → ℕ) (r : ℕ → Bool) (words after : List ℕ) → ((c : ℕ) → r c ≡ true → slice_index after (f c) ≡ slice_index words c) → (op : StatelessOp) → operation_names r op ≡ true → stateless_word hash (operation_renamed f op) after ≡ stateless_word hash op words }
{}
