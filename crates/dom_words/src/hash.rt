ghost use Rattle.std.specs.Prelude.{◌≡◌, ℕ, ◌+◌, ◌*◌, ◌%◌, ◌^◌, ◌<◌, ◌≤◌, List, [], ◌∷◌, ◌++◌, length, bit_xor, take};

/// The name of a hash function.
#[derive(Clone, Copy, Debug, PartialEq, Eq)]
pub struct HashName {
    /// How many words it takes, from 1 to 4.
    pub args: u8,
    /// The number of its letter: 0 without a letter, 1 to 8 for `a` to `h`.
    pub letter: u8,
    ghost some_args: { 1 ≤ args },
    ghost few_args: { args ≤ 4 },
    ghost letter_to_h: { letter ≤ 8 },
}

/// The hash functions of a target. Each answers by its name and its arguments alone, below 2^31.
pub trait HashUnits {
    ghost use Rattle.dom_words.specs.declared.hash.HashName.{HashName};

    /// What a unit answers for its arguments.
    ghost meaning: { Self → HashName → List ℕ → ℕ };

    /// The unit's answer for as many words as it takes.
    fn apply(&self, unit: HashName, args: &[u32]) -> u32
        requires { length args.now ≡ unit.args }
        ensures value { result ≡ meaning self.now unit args.now }
        ensures small { result < 2 ^ 31 };

    ghost is_small: { (h : Self) (unit : HashName) (args : List ℕ) → meaning h unit args < 2 ^ 31 };
}

/// The shipped hash functions: 32-bit FNV-1a over the letter's number and the words' bytes, low byte first, with the top
/// bit cleared (docs/LANGUAGE.md, "Hash functions").
#[derive(Clone, Copy, Debug)]
pub struct FnvUnits;

impl HashUnits for FnvUnits {
    ghost use Rattle.dom_words.specs.Fnv.{fnv_unit};
    ghost use Rattle.std.proofs.Common.{arith};

    ghost meaning = { λ _ unit args. fnv_unit unit.letter args };

    ghost is_small = { λ _ unit args. Prim.omega arith };

    fn apply(&self, unit: HashName, args: &[u32]) -> u32 {
        mixed_words(mixed(2166136261, unit.letter), args) & 0x7fff_ffff
    }
}

ghost use Rattle.std.specs.Prelude.{fold};
ghost use Rattle.dom_words.specs.Fnv.{bytes_of, fnv_step};

#[tactic(auto, using(crate::proofs::FnvLemmas::word_by_word))]
fn mixed_words(state: u32, words: &[u32]) -> u32
    ensures { result ≡ fold fnv_step state (bytes_of words.now) }
{
    words
        .iter()
        .fold(state, |state, word| mixed_word(state, *word))
}

ghost use Rattle.std.specs.Int.{to_le_bytes, w32};

fn mixed_word(state: u32, word: u32) -> u32
    ensures { result ≡ fold fnv_step state (to_le_bytes w32 word) }
{
    word.to_le_bytes()
        .iter()
        .fold(state, |state, byte| mixed(state, *byte))
}

fn mixed(state: u32, byte: u8) -> u32
    ensures { result ≡ fnv_step state byte }
{
    (state ^ u32::from(byte)).wrapping_mul(16777619)
}
