//! Laws of the texts of configurations: a text has one answer.
ghost use Rattle.std.specs.Prelude.{◌≡◌, ◌≤◌, ◌<◌, ℕ, List, length, true};
ghost use Rattle.banzai_config.specs.declared.target.Target.{Target};
ghost use Rattle.banzai_config.specs.Legal.{LegalFor};
ghost use Rattle.banzai_config.specs.Parts.{PartsForm};
ghost use Rattle.banzai_config.specs.Targets.{shape_of};
ghost use Rattle.config_text.specs.Fronts.{HasNoTarget, IsBadLine, Spells, TextOf, text_of};
ghost use Rattle.config_text.specs.Lines.{NamedParts};
ghost use Rattle.config_text.specs.Sizes.{names_size};
ghost use Rattle.config_text.specs.Small.{has_small_numbers};

/// A text spells one configuration at most, under the name of one target.
pub fn one_spelling()
    ensures { (p : NamedParts) (q : NamedParts) (text : List ℕ) → Spells p text → Spells q text → p ≡ q }
{}

/// A text that spells a configuration has no bad line (`none`), and a text has one first bad line at most (`one`).
pub fn one_fault()
    ensures none { (text : List ℕ) (n : ℕ) (p : NamedParts) → IsBadLine text n → Spells p text → ⊥ }
    ensures one { (text : List ℕ) (n : ℕ) (m : ℕ) → IsBadLine text n → IsBadLine text m → n ≡ m }
{}

/// A text is that of one target and one configuration at most (`pair`). A text with a target is none without (`target`), and
/// one in which all lines may stand is none with a bad line (`lines`).
pub fn one_answer()
    ensures pair { (t : Target) (u : Target) (p : PartsForm) (q : PartsForm) (text : List ℕ) → TextOf t p text → TextOf u q text → (t ≡ u) × (p ≡ q) }
    ensures target { (t : Target) (p : PartsForm) (text : List ℕ) → TextOf t p text → HasNoTarget text → ⊥ }
    ensures lines { (text : List ℕ) (n : ℕ) → IsBadLine text n → HasNoTarget text → ⊥ }
{}

/// A configuration that is legal for a target, and whose numbers are below 2^32, has a text, which is `text_of`.
pub fn legal_text()
    ensures { (t : Target) (p : PartsForm) → LegalFor (shape_of t) p → has_small_numbers p ≡ true → TextOf t p (text_of t p) }
{}

/// The text of a legal configuration whose names have at most 65,536 bytes together, as those of one program have, is
/// shorter than 1,048,576 bytes, the most that are read.
pub fn short_text()
    ensures { (t : Target) (p : PartsForm) (text : List ℕ) → LegalFor (shape_of t) p → TextOf t p text → names_size p ≤ 65536 → length text < 1048576 }
{}
