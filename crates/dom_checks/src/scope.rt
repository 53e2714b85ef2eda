ghost use Rattle.std.specs.Prelude.{◌≡◌, ◌+◌, ◌<◌, ◌≤◌, false, true, is_some, length, map, IfNone, IfOk, IfSome};
ghost use Rattle.dom_words.specs.Names.{has_name, index_of};
ghost use Rattle.dom_words.specs.State.{are_lengths, is_length, state_words};
ghost use Rattle.dom_checks.specs.declared.meant.Meant.TheVariants as meaning;
ghost use Rattle.dom_checks.specs.inner.After.{without_param};
ghost use Rattle.dom_checks.specs.inner.Kept.{is_numbered};
ghost use Rattle.dom_checks.specs.Scope.{global_meaning, is_param, meant, nothing, with_array, with_global, with_name, with_param, with_struct};

use crate::meant::Meant;
use dom_ast::Length;
use dom_words::{Array, ArrayList, Memory, Name, Names};
use std::alloc::Global;
use std::marker::Model;

/// What is declared at a place of a program: the struct's name and its fields; the defines and globals in order, with what
/// each means; the arrays; and the parameter, inside a transaction.
#[derive(Drop)]
pub(crate) struct Scope {
    tag: Name,
    fields: Names,
    names: Names,
    meanings: Vec<Meant>,
    arrays: ArrayList,
    words: u32,
    param: Option<Name>,
}

impl Model for Scope {
    ghost use Rattle.dom_checks.specs.inner.Kept.{IsKept};
    ghost use Rattle.dom_checks.specs.Scope as scope;

    ghost Value = { scope.Scope };

    ghost view = { λ s. record { tag = s.tag; fields = s.fields; names = s.names; meanings = s.meanings.items; arrays = s.arrays; param = s.param } };

    ghost invariant = { λ s. IsKept s.fields s.names s.meanings.items s.arrays s.words };
}

impl Scope {
    /// Nothing is declared.
    pub(crate) fn new(alloc: Global) -> Result<Scope, Memory>
        ensures { IfOk result (λ scope. scope ≡ nothing) }
    {
        Ok(Scope {
            tag: Name::of(alloc, &[])?,
            fields: Names::new(alloc),
            names: Names::new(alloc),
            meanings: Vec::new(alloc),
            arrays: ArrayList::new(alloc),
            words: 0,
            param: None,
        })
    }

    /// What a name means; `None` where it is not declared.
    pub(crate) fn meant(&self, name: &[u8]) -> Option<Meant>
        ensures meaning { result ≡ meant self.now name.now }
        ensures numbered { IfSome result (λ m. is_numbered (length self.now.arrays) m ≡ true) }
        ensures few { length self.now.arrays ≤ 32 }
        ensures new { IfNone result (has_name self.now.names name.now ≡ false) }
    {
        let place = self.names.find(name);
        if self.is_param(name) {
            return Some(Meant::Parameter);
        }
        match place {
            Some(k) => Some(self.meanings[k]),
            None => None,
        }
    }

    fn is_param(&self, name: &[u8]) -> bool
        ensures { result ≡ is_param self.now.param name.now }
    {
        match &self.param {
            Some(param) => param.as_bytes() == name,
            None => false,
        }
    }

    /// The number of the field with this name; `None` where no field has it.
    pub(crate) fn field(&self, name: &[u8]) -> Option<u32>
        ensures number { result ≡ index_of self.now.fields name.now }
        ensures within { IfSome result (λ k. k < length self.now.fields) }
        ensures found { is_some result ≡ has_name self.now.fields name.now }
        ensures few { length self.now.fields ≤ 64 }
    {
        match self.fields.find(name) {
            Some(k) => Some(k as u32),
            None => None,
        }
    }

    /// The struct's name.
    pub(crate) fn tag(&self) -> &[u8]
        ensures { result.now ≡ self.now.tag }
    {
        self.tag.as_bytes()
    }

    /// The packet's fields and the state.
    pub(crate) fn into_parts(self) -> (Names, ArrayList)
        ensures fields { result.0 ≡ self.fields }
        ensures arrays { result.1 ≡ self.arrays }
        ensures few_fields { length self.fields ≤ 64 }
        ensures few_arrays { length self.arrays ≤ 32 }
        ensures lengths { are_lengths self.arrays ≡ true }
        ensures few_words { state_words self.arrays ≤ 1048576 }
    {
        (self.fields, self.arrays)
    }

    /// The number of arrays.
    pub(crate) fn arrays_count(&self) -> u32
        ensures number { result ≡ length self.now.arrays }
        ensures few { result ≤ 32 }
    {
        self.arrays.len() as u32
    }

    /// The words of all arrays.
    pub(crate) fn words(&self) -> u32
        ensures number { result ≡ state_words self.now.arrays }
        ensures few { result ≤ 1048576 }
    {
        self.words
    }

    /// What a name means at a global, where the global's own name is declared already.
    pub(crate) fn meant_at_global(
        &self,
        own: &[u8],
        brackets: &Option<Length>,
        name: &[u8],
    ) -> Option<Meant>
        ensures { result ≡ meant (with_global self.now own.now brackets.now) name.now }
    {
        let _ = &self.meanings;
        match self.meant(name) {
            Some(meant) => Some(meant),
            None if name == own => Some(self.next_global(brackets)),
            None => None,
        }
    }

    /// Declares a define.
    pub(crate) fn with_define(self, name: Name, word: u32) -> Result<Scope, Memory>
        requires new { has_name self.names name ≡ false }
        ensures { IfOk result (λ scope. scope ≡ with_name self name (meaning.Define word)) }
    {
        self.with_name(name, Meant::Define(word))
    }

    fn with_name(self, name: Name, meant: Meant) -> Result<Scope, Memory>
        requires new { has_name self.names name ≡ false }
        requires numbered { is_numbered (length self.arrays) meant ≡ true }
        ensures { IfOk result (λ scope. scope ≡ with_name self name meant) }
    {
        let Scope {
            tag,
            fields,
            mut names,
            mut meanings,
            arrays,
            words,
            param,
        } = self;
        let _new = names.add(name)?;
        meanings.push(meant).map_err(|_| Memory)?;
        Ok(Scope {
            tag,
            fields,
            names,
            meanings,
            arrays,
            words,
            param,
        })
    }

    /// Declares the struct.
    pub(crate) fn with_struct(self, tag: Name, fields: Names) -> Scope
        requires few { length fields ≤ 64 }
        ensures { result ≡ with_struct self tag fields }
    {
        Scope {
            tag,
            fields,
            names: self.names,
            meanings: self.meanings,
            arrays: self.arrays,
            words: self.words,
            param: self.param,
        }
    }

    /// What a global means that is declared next.
    pub(crate) fn next_global(&self, brackets: &Option<Length>) -> Meant
        ensures { result ≡ global_meaning (length self.now.arrays) brackets.now }
    {
        let number = self.arrays_count();
        match brackets {
            Some(_) => Meant::Array(number),
            None => Meant::Scalar(number),
        }
    }

    /// Declares a global with these words.
    pub(crate) fn with_global(
        self,
        alloc: Global,
        brackets: &Option<Length>,
        array: Array,
    ) -> Result<Scope, Memory>
        requires new { has_name self.names array.name ≡ false }
        requires room { length self.arrays < 32 }
        requires size { is_length array.length ≡ true }
        requires words { state_words self.arrays + array.length ≤ 1048576 }
        ensures { IfOk result (λ scope. scope ≡ with_array (with_global self array.name brackets.now) array) }
    {
        let meant = self.next_global(brackets);
        let name = Name::of(alloc, array.name.as_bytes())?;
        let Scope {
            tag,
            fields,
            mut names,
            mut meanings,
            mut arrays,
            words,
            param,
        } = self;
        let _new = names.add(name)?;
        meanings.push(meant).map_err(|_| Memory)?;
        let length = array.length;
        arrays.push(array)?;
        Ok(Scope {
            tag,
            fields,
            names,
            meanings,
            arrays,
            words: words + length,
            param,
        })
    }

    /// Declares the parameter of a transaction.
    pub(crate) fn declare_param(&mut self, param: Name)
        ensures { self.new ≡ with_param self.old param }
    {
        self.param = Some(param);
    }

    /// Ends the transaction whose parameter is declared.
    pub(crate) fn end_param(&mut self)
        ensures { self.new ≡ without_param self.old }
    {
        self.param = None;
    }
}
