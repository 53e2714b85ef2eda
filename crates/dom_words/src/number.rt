ghost use Rattle.std.specs.Prelude.{◌≡◌, ◌+◌, ◌-◌, ◌*◌, ◌^◌, ◌<◌, ◌≤◌, ◌&&◌, length, take, IsTrue};
ghost use Rattle.std.specs.Char.{is_ascii_digit};
ghost use Rattle.std.specs.List.{list_all};
ghost use Rattle.dom_words.specs.Number.{count_of, digits_value, number_up_to, signed_of, word_of_text};

/// The word read as a two's complement number.
pub fn signed(word: u32) -> i32
    ensures { result ≡ signed_of word }
{
    word.cast_signed()
}

/// The word that an optional `-` and one to ten digits write, from -2147483648 to 4294967295; `None` exactly where the
/// text is no such number.
pub fn read_word(text: &[u8]) -> Option<u32>
    ensures { result ≡ word_of_text text.now }
{
    match text {
        [] => None,
        [b'-', digits @ ..] => {
            let size = number(digits, 1 << 31)?;
            Some(size.wrapping_neg())
        }
        _ => read_count(text),
    }
}

/// The number that one to ten digits write, up to 4294967295; `None` exactly where the text is no such number.
pub fn read_count(text: &[u8]) -> Option<u32>
    ensures { result ≡ count_of text.now }
{
    number(text, u32::MAX)
}

// The number that one to ten digits write, if it is not above `most`.
fn number(text: &[u8], most: u32) -> Option<u32>
    ensures { result ≡ number_up_to most text.now }
{
    if text.is_empty() || text.len() > 10 {
        return None;
    }
    let mut value = 0u64;
    for byte in text {
        if !byte.is_ascii_digit() {
            return None;
        }
        value = value * 10 + u64::from(*byte - b'0');
    }
    if value > u64::from(most) {
        return None;
    }
    Some(value as u32)
}
