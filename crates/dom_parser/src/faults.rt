/// Why tokens spell no program. Each variant has the offset of the token at which the fault stands, or the text's
/// length where it stands at the end.
#[derive(Clone, Copy, Debug, PartialEq, Eq)]
pub enum ParseFault {
    /// A forbidden word, where the tokens before it begin a program.
    Forbidden(u32),
    /// The tokens before this place begin a program, and with the token there they don't; or the text ends too early.
    Unexpected(u32),
    /// The token opens a construct while 64 are open.
    TooNested(u32),
    /// Want of memory.
    Memory,
}

/// So many constructs may be open at a token.
pub(crate) const MOST_OPEN: u32 = 64;

/// A fault with the token's number, from 0, in the place of its offset.
#[derive(Clone, Copy, Debug, PartialEq, Eq)]
pub(crate) enum Fault {
    Unexpected(usize),
    TooNested(usize),
    Memory,
}
