ghost use Rattle.std.specs.Prelude.{◌≡◌};
ghost use Rattle.std.specs.Option.{option_map};
ghost use Rattle.config_text.specs.Reading.{key_of};
ghost use Rattle.config_text.specs.Views.{first_key};

/// The first word of a line.
#[derive(Clone, Copy)]
pub(crate) enum First {
    Head,
    Target,
    Field,
    Array,
    Containers,
    Stage,
    Un,
    Bin,
    Cond,
    Hash,
    Atom,
    Slot,
    Out,
    End,
}

/// The kind of line that begins with a word.
pub(crate) fn first_of(word: &[u8]) -> Option<First>
    ensures { option_map first_key result ≡ key_of word.now }
{
    if word == b"banzai".as_slice() {
        Some(First::Head)
    } else if word == b"target".as_slice() {
        Some(First::Target)
    } else if word == b"field".as_slice() {
        Some(First::Field)
    } else if word == b"array".as_slice() {
        Some(First::Array)
    } else if word == b"containers".as_slice() {
        Some(First::Containers)
    } else if word == b"stage".as_slice() {
        Some(First::Stage)
    } else if word == b"un".as_slice() {
        Some(First::Un)
    } else if word == b"bin".as_slice() {
        Some(First::Bin)
    } else if word == b"cond".as_slice() {
        Some(First::Cond)
    } else if word == b"hash".as_slice() {
        Some(First::Hash)
    } else if word == b"atom".as_slice() {
        Some(First::Atom)
    } else if word == b"slot".as_slice() {
        Some(First::Slot)
    } else if word == b"out".as_slice() {
        Some(First::Out)
    } else if word == b"end".as_slice() {
        Some(First::End)
    } else {
        None
    }
}
