ghost use Rattle.std.specs.Prelude.{◌≡◌, ◌<◌, Some, length, slice_get};

use atom_traits::{AtomTemplate, StatelessOp};
use dom_words::Seq;

/// An atom: the operator of a codelet without state, or a template's parameters for a codelet with state.
#[derive(Drop)]
pub enum Atom<P> {
    Stateless(StatelessOp),
    Stateful(P),
}

/// The atoms of codelets, in their order.
#[derive(Drop)]
pub struct Atoms<T: AtomTemplate> {
    pub(crate) list: Seq<Atom<T::Params>>,
}

impl<T: AtomTemplate> Atoms<T> {
    /// The atom of the codelet at a position. Takes no memory.
    pub fn atom(&self, which: usize) -> &Atom<T::Params>
        requires { which < length self.now.list }
        ensures { slice_get self.now.list which ≡ Some result.now }
    {
        self.list.get(which)
    }
}
