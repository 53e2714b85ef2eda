//! Words of 32 bits, their texts, hash units, names, packets and lists: what every other crate speaks of.
#![tactic(auto)]

mod array;
mod hash;
mod name;
mod names;
mod number;
mod operators;
mod packet;
mod seq;
mod spelling;
mod units;

pub use array::{Array, ArrayList, FileList};
pub use hash::{FnvUnits, HashName, HashUnits};
pub use name::Name;
pub use names::Names;
pub use number::{read_count, read_word, signed};
pub use operators::{BinOp, UnOp, apply_bin, apply_un, choose, element, reduce};
pub use packet::Packet;
pub use seq::{Memory, Numbers, Seq};
pub use spelling::{is_forbidden, is_name};
