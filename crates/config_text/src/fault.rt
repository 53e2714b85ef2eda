/// Why a text is no configuration for a target.
#[derive(Clone, Copy, Debug, PartialEq, Eq)]
pub enum ReadFault {
    /// The first line that may not stand after the lines before it, counted from 1: a line judged by itself and those lines
    /// alone, or a rest without a line feed. For a text that ends too early it is one past its lines.
    Line(u32),
    /// No target has the name.
    UnknownTarget,
    /// Want of memory.
    Memory,
}
