use crate::name::Name;
use crate::seq::Seq;

/// An array of state words. A scalar is an array of one word.
#[derive(Debug, Drop)]
pub struct Array {
    /// Its name.
    pub name: Name,
    /// Its number of words.
    pub length: u32,
    /// The word that each of them starts with.
    pub init: u32,
}

/// Arrays in order of declaration; an array's number is its place here, from 0.
pub type ArrayList = Seq<Array>;

/// Files in memory: each name with its bytes.
pub type FileList = Seq<(Name, Seq<u8>)>;
