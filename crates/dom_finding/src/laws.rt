//! What holds of every command and all texts.

ghost use Rattle.std.specs.Prelude.{◌≡◌, ℕ, List, [], Option, Result};
ghost use Rattle.dom_finding.specs.Command.{Command};
ghost use Rattle.dom_finding.specs.Configs.{ConfigForm, ConfigRefusal, IsConfig};
ghost use Rattle.dom_finding.specs.Finding.{Finding, IsFoundAfter, IsNext, IsTold, MayHold, Next};

/// A text is one thing as a configuration: that of one target with these parts, or refused for one cause.
pub fn one_config()
    ensures { (text : List ℕ) (r s : Result ConfigForm ConfigRefusal) → IsConfig text r → IsConfig text s → r ≡ s }
{}

/// After some texts one thing comes next: one file, or one finding.
pub fn one_next()
    ensures { (command : Command) (texts : List (List ℕ)) (m n : Next) → IsNext command texts m → IsNext command texts n → m ≡ n }
{}

/// What a command finds in files that are told is all that it may find in them.
pub fn one_finding()
    ensures { (files : List ℕ → Option (List ℕ)) (command : Command) (f g : Finding) → IsFoundAfter (MayHold files) command [] f → IsFoundAfter (IsTold files) command [] g → f ≡ g }
{}
