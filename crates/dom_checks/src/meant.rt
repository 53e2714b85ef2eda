/// What a name means that is no field. Arrays are numbered from 0 in the order of declaration, scalars among them.
#[derive(Clone, Copy, Debug, PartialEq, Eq)]
pub(crate) enum Meant {
    /// A word.
    Define(u32),
    /// An array of one word that takes no index.
    Scalar(u32),
    /// An array that takes an index.
    Array(u32),
    /// The packet.
    Parameter,
}
