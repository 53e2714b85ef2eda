ghost use Rattle.std.specs.Prelude.{◌≡◌, ◌<◌, length, slice_get, IfOk, Some};

use crate::seq::Memory;
use std::alloc::Global;
use std::marker::Model;

/// A name, seen as the list of its bytes.
#[derive(Debug, Drop)]
pub struct Name {
    bytes: Vec<u8>,
}

impl Model for Name {
    ghost use Rattle.std.specs.Prelude.{List, ℕ};

    ghost Value = { List ℕ };

    ghost view = { λ n. n.bytes.items };
}

impl Name {
    /// The name with these bytes.
    pub fn of(alloc: Global, text: &[u8]) -> Result<Name, Memory>
        ensures { IfOk result (λ name. name ≡ text.now) }
    {
        match Vec::from_slice(alloc, text) {
            Ok(bytes) => Ok(Name { bytes }),
            Err(_) => Err(Memory),
        }
    }

    /// The number of bytes.
    pub fn len(&self) -> usize
        ensures { result ≡ length self.now }
    {
        self.bytes.len()
    }

    /// Byte `k`, from 0.
    pub fn get(&self, k: usize) -> u8
        requires { k < length self.now }
        ensures { slice_get self.now k ≡ Some result }
    {
        self.bytes[k]
    }

    /// All of the bytes.
    pub fn as_bytes(&self) -> &[u8]
        ensures { result.now ≡ self.now }
    {
        self.bytes.as_slice()
    }

    pub(crate) fn into_bytes(self) -> Vec<u8>
        ensures { result.items ≡ self }
    {
        let Name { bytes } = self;
        bytes
    }
}
