ghost use Rattle.std.specs.Prelude.{◌≡◌, [], ◌∷◌, ◌++◌, ◌<◌, length, slice_get, slice_index_or, is_some, not, if◌then◌else◌, IfOk, IfSome, OnErr, Some};
ghost use Rattle.dom_words.specs.Names.{has_name, index_of, is_same};
ghost use Rattle.std.specs.List.{IsDistinct};

use crate::name::Name;
use crate::seq::Memory;
use indexmap::IndexSet;
use std::alloc::Global;
use std::marker::Model;

/// Distinct names in the order in which they were added, seen as the list of them.
#[derive(Drop)]
pub struct Names {
    names: IndexSet<Vec<u8>>,
}

impl Model for Names {
    ghost use Rattle.std.specs.Prelude.{List, ℕ, map};

    ghost Value = { List (List ℕ) };

    ghost view = { λ n. map (λ v. v.items) n.names.keys };
}

impl Names {
    /// No names. Takes no memory.
    pub fn new(alloc: Global) -> Names
        ensures { result ≡ [] }
    {
        Names {
            names: IndexSet::new(alloc),
        }
    }

    /// The number of names. No two of them have the same bytes.
    pub fn len(&self) -> usize
        ensures number { result ≡ length self.now }
        ensures distinct { IsDistinct is_same self.now }
    {
        self.names.len()
    }

    /// Puts a new name at the end and answers true; answers false and changes nothing where the name is there.
    #[tactic(auto, using(crate::proofs::NamesLemmas::over_map))]
    pub fn add(&mut self, name: Name) -> Result<bool, Memory>
        ensures new { IfOk result (λ new. new ≡ not (has_name self.old name)) }
        ensures names { IfOk result (λ new. self.new ≡ (if new then self.old ++ name ∷ [] else self.old)) }
        ensures err { OnErr result (self.new ≡ self.old) }
    {
        let new = self.names.insert(name.into_bytes()).map_err(|_| Memory)?;
        Ok(new)
    }

    /// Where the name with these bytes stands, from 0; `None` where no name has them.
    #[tactic(auto, using(crate::proofs::NamesLemmas::over_map))]
    pub fn find(&self, text: &[u8]) -> Option<usize>
        ensures index { result ≡ index_of self.now text.now }
        ensures found { is_some result ≡ has_name self.now text.now }
        ensures within { IfSome result (λ k. k < length self.now) }
    {
        self.names.get_index_of(text)
    }

    /// The bytes of name `k`, from 0.
    pub fn get(&self, k: usize) -> &[u8]
        requires { k < length self.now }
        ensures item { slice_get self.now k ≡ Some result.now }
        ensures same { result.now ≡ slice_index_or self.now k result.now }
    {
        self.names.as_slice()[k].as_slice()
    }

    /// The same names in the same order.
    pub fn copy(&self, alloc: Global) -> Result<Names, Memory>
        ensures { IfOk result (λ names. names ≡ self.now) }
    {
        let mut names = Names::new(alloc);
        for k in 0..self.len() {
            let name = Name::of(alloc, self.get(k))?;
            let _new = names.add(name)?;
        }
        Ok(names)
    }
}
