ghost use Rattle.std.specs.Prelude.{◌≡◌, IfSome, IfNone};
ghost use Rattle.dom_words.specs.Units.{unit_named, unit_ending};
ghost use Rattle.dom_words.specs.declared.hash.HashName.{HashName};

use crate::hash::HashName;

impl HashName {
    /// The unit with this name: `hash`, a digit from 1 to 4, and a letter from `a` to `h` or none; `None` exactly where the
    /// text is no such name (docs/LANGUAGE.md, "Hash functions").
    pub fn named(text: &[u8]) -> Option<HashName>
        ensures { result ≡ unit_named text.now }
    {
        match text.strip_prefix(b"hash") {
            Some(ending) => unit_with_ending(ending),
            None => None,
        }
    }
}

// The unit with this digit and letter after `hash`.
fn unit_with_ending(ending: &[u8]) -> Option<HashName>
    ensures some { IfSome result (λ unit. ending.now ≡ unit_ending unit) }
    ensures none { IfNone result ((unit : HashName) → ending.now ≡ unit_ending unit → ⊥) }
{
    match ending {
        [digit] if (b'1'..=b'4').contains(digit) => Some(HashName {
            args: *digit - b'0',
            letter: 0,
        }),
        [digit, letter] if (b'1'..=b'4').contains(digit) && (b'a'..=b'h').contains(letter) => {
            Some(HashName {
                args: *digit - b'0',
                letter: *letter - b'a' + 1,
            })
        }
        _ => None,
    }
}
