ghost use Rattle.std.specs.Prelude.{◌≡◌, map};
ghost use Rattle.std.specs.List.{list_all};
ghost use Rattle.dom_words.specs.Names.{has_name};
ghost use Rattle.dom_words.specs.Spelling.{forbidden_words, is_name, is_word, is_word_byte, is_word_start, reserved};

const OWN_WORDS: [&[u8]; 6] = [b"struct", b"int", b"void", b"if", b"else", b"define"];

const FORBIDDEN_WORDS: [&[u8]; 25] = [
    b"while",
    b"for",
    b"do",
    b"switch",
    b"case",
    b"default",
    b"goto",
    b"break",
    b"continue",
    b"return",
    b"sizeof",
    b"char",
    b"short",
    b"long",
    b"unsigned",
    b"signed",
    b"float",
    b"double",
    b"enum",
    b"union",
    b"typedef",
    b"static",
    b"const",
    b"volatile",
    b"include",
];

/// Whether these bytes are a name: a letter or `_` and then letters, digits and `_`, and none of the reserved words
/// (docs/LANGUAGE.md, "Tokens").
pub fn is_name(text: &[u8]) -> bool
    ensures { result ≡ is_name text.now }
{
    is_word(text) && !is_reserved(text)
}

/// Whether these bytes are one of the words of C that the language leaves out.
pub fn is_forbidden(text: &[u8]) -> bool
    ensures { result ≡ has_name forbidden_words text.now }
{
    is_among(&FORBIDDEN_WORDS, text)
}

fn is_word(text: &[u8]) -> bool
    ensures { result ≡ is_word text.now }
{
    match text {
        [] => false,
        [first, rest @ ..] => is_word_start(*first) && are_word_bytes(rest),
    }
}

fn is_word_start(byte: u8) -> bool
    ensures { result ≡ is_word_start byte }
{
    byte.is_ascii_alphabetic() || byte == b'_'
}

fn is_word_byte(byte: u8) -> bool
    ensures { result ≡ is_word_byte byte }
{
    byte.is_ascii_alphanumeric() || byte == b'_'
}

fn are_word_bytes(text: &[u8]) -> bool
    ensures { result ≡ list_all is_word_byte text.now }
{
    text.iter().all(|byte| is_word_byte(*byte))
}

fn is_reserved(text: &[u8]) -> bool
    ensures { result ≡ has_name reserved text.now }
{
    is_among(&OWN_WORDS, text) || is_forbidden(text)
}

fn is_among(words: &[&[u8]], text: &[u8]) -> bool
    ensures { result ≡ has_name (map (λ word. word.now) words.now) text.now }
{
    for word in words {
        if text == *word {
            return true;
        }
    }
    false
}
