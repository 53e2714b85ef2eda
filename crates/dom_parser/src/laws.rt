//! What holds of every list of tokens.

ghost use Rattle.std.specs.Prelude.{◌≡◌, ◌↔◌, ℕ, true, List};
ghost use Rattle.std.specs.List.{list_all};
ghost use Rattle.dom_words.specs.Spelling.{is_name, is_word};
ghost use Rattle.dom_lexer.specs.Words.{words_of};
ghost use Rattle.dom_lexer.specs.declared.token.Token.{Token};
ghost use Rattle.dom_ast.specs.Form.{ProgramForm};
ghost use Rattle.dom_parser.specs.declared.kinds.Kind.TheVariants as kind;
ghost use Rattle.dom_parser.specs.declared.faults.ParseFault.{ParseFault};
ghost use Rattle.dom_parser.specs.declared.faults.ParseFault.TheVariants as fault;
ghost use Rattle.dom_parser.specs.Answer.{HasAnswer};
ghost use Rattle.dom_parser.specs.Faults.{IsFirstFault};
ghost use Rattle.dom_parser.specs.Grammar.{Spells};
ghost use Rattle.dom_parser.specs.Names.{AreNamedBy};
ghost use Rattle.dom_parser.specs.Tokens.{word_kind};

/// Tokens spell a program with no more than 64 constructs open at any of them, or they have a first fault other than want of
/// memory.
pub fn some_answer()
    ensures { (tokens : List Token) (end : ℕ) → HasAnswer tokens end }
{}

/// A list of tokens spells one program at most.
pub fn one_program()
    ensures { (p q : ProgramForm) (l : List Token) → Spells p l → Spells q l → p ≡ q }
{}

/// A list of tokens has one fault at most, want of memory aside.
pub fn one_fault()
    ensures { (l : List Token) (end : ℕ) (f g : ParseFault) → IsFirstFault l end f → IsFirstFault l end g → (f ≡ fault.Memory → ⊥) → (g ≡ fault.Memory → ⊥) → f ≡ g }
{}

/// A word may stand where the grammar has a name exactly where it is spelled as a name.
pub fn names()
    ensures { (word : List ℕ) → is_word word ≡ true → (word_kind word ≡ kind.Name) ↔ (is_name word ≡ true) }
{}

/// The fields and globals of a program have names, and these together are no longer than the words of the tokens that spell
/// the program.
pub fn declared_names()
    ensures { (program : ProgramForm) (tokens : List Token) → Spells program tokens → list_all is_word (words_of tokens) ≡ true → AreNamedBy program.heads tokens }
{}
