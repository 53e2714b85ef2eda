//! What holds of every statement list.

ghost use Rattle.std.specs.Prelude.{length};
ghost use Rattle.dom_flat.specs.Form.{flat_form};
ghost use Rattle.dom_flat.specs.Laws.{FlanksArePaired, NumbersAreWords, PlacesAreInRange, RunIsConsistent, RunsKeepSizes, UsesAreMade};

use crate::flat::Flat;

/// A statement uses values before its own, and a value that is used is a field's or that of a statement which makes one:
/// nothing uses the number of a write flank.
pub fn uses_are_made(flat: &Flat)
    ensures { UsesAreMade (flat_form flat.now) }
{}

/// Each array has one read flank and one write flank at most, and the read flank stands before the write flank and has its
/// index.
pub fn flanks_are_paired(flat: &Flat)
    ensures { FlanksArePaired flat.now.lines }
{}

/// The array of a flank is one of the list's arrays, and a hash has as many arguments as its unit takes.
pub fn places_are_in_range(flat: &Flat)
    ensures { PlacesAreInRange (length flat.now.arrays) flat.now.lines }
{}

/// A modulus is at most 2147483647, and constants and what arrays start with are words of 32 bits.
pub fn numbers_are_words(flat: &Flat)
    ensures { NumbersAreWords flat.now.arrays flat.now.lines flat.now.outputs }
{}

/// A run leaves arrays of the lengths that they had, and one word for each field.
pub fn runs_keep_sizes(flat: &Flat)
    ensures { RunsKeepSizes (flat_form flat.now) }
{}

/// A run and what holds between its values are the same: the values of a run are each what its statement makes of the
/// others and of the arrays at the beginning, no other values are, and they and the arrays at the beginning decide the
/// outcome.
pub fn run_is_consistent(flat: &Flat)
    ensures { RunIsConsistent (flat_form flat.now) }
{}
