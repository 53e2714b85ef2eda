//! What holds of every text.

ghost use Rattle.std.specs.Prelude.{◌≡◌, ◌↔◌, ℕ, true, List, Result};
ghost use Rattle.dom_words.specs.Spelling.{is_word};
ghost use Rattle.dom_lexer.specs.declared.token.Token.{Token};
ghost use Rattle.dom_lexer.specs.declared.token.LexFault.{LexFault};
ghost use Rattle.dom_lexer.specs.Answer.{IsAnswer};
ghost use Rattle.dom_lexer.specs.Text.{Lexed};
ghost use Rattle.dom_lexer.specs.Words.{AreWordsOf, word_alone};

/// A text has one answer, its tokens or the fault that stands first in it, and never two.
pub fn one_answer()
    ensures some { (text : List ℕ) → (r : Result (List Token) LexFault) × IsAnswer text r }
    ensures one { (text : List ℕ) (r s : Result (List Token) LexFault) → IsAnswer text r → IsAnswer text s → r ≡ s }
{}

/// A text has one list of tokens at most, however long.
pub fn one_list()
    ensures { (text : List ℕ) (tokens others : List Token) → Lexed text tokens → Lexed text others → tokens ≡ others }
{}

/// The words among the tokens of a text are spelled as words, and all together they are no longer than the text. What is
/// spelled as a word, and nothing else, is lexed as that one word.
pub fn words()
    ensures all { (text : List ℕ) (tokens : List Token) → Lexed text tokens → AreWordsOf text tokens }
    ensures alone { (word : List ℕ) → (is_word word ≡ true) ↔ Lexed word (word_alone word) }
{}
