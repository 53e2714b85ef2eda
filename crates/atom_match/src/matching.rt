ghost use Rattle.std.specs.Prelude.{◌≡◌, false, true, IfErr, IfOk, IsSomeAnd, MatchOption, None, OnOk, Some, length, map, slice_get};
ghost use Rattle.atom_traits.specs.Form.{forms_if};
ghost use Rattle.atom_match.specs.Atoms.{IsMatchFault, atom_form, atom_of, first_outside, fits_codelet, trees_at_position};
ghost use Rattle.atom_match.specs.Classes.{class_of};
ghost use Rattle.atom_match.specs.Table.{IsEarlier};

use crate::atoms::{Atom, Atoms};
use crate::building::trees_of_codelet;
use crate::fault::MatchFault;
use crate::operator::operator_of_codelet;
use atom_traits::{AtomTemplate, Trees, needs_multiplier};
use codelets::{Codelet, Codelets, Kind};
use dom_words::{Memory, Seq};
use std::alloc::Global;

/// The trees of a codelet with state, one for each of its arrays in their order; `None` exactly where they don't exist
/// (docs/MACHINE.md, "Trees").
pub fn trees(alloc: Global, codelets: &Codelets, which: usize) -> Result<Option<Trees>, Memory>
    requires { IsSomeAnd (slice_get codelets.now.list which) (λ c. c.kind ≡ Kind.Stateful) }
    ensures { IfOk result (λ t. forms_if t ≡ trees_at_position codelets.now which) }
{
    trees_of_codelet(alloc, codelets, &codelets.list()[which])
}

// The atom of a codelet, exactly where it fits.
fn atom_for<T: AtomTemplate, const MUL: bool>(
    alloc: Global,
    codelets: &Codelets,
    codelet: &Codelet,
) -> Result<Option<Atom<T::Params>>, Memory>
    requires { codelet.now.kind ≡ Kind.Stateful → IsEarlier (class_of codelets.now codelet.now) (length codelets.now.flat.lines) }
    ensures { IfOk result (λ found. MatchOption found (fits_codelet T.fits MUL codelets.now codelet.now ≡ false) (λ a. (fits_codelet T.fits MUL codelets.now codelet.now ≡ true) × (Some (atom_form T.trees_of a) ≡ atom_of codelets.now codelet.now))) }
{
    match codelet.kind {
        Kind::Stateless => match operator_of_codelet(alloc, codelets, codelet)? {
            Some(op) if MUL || !needs_multiplier(&op) => Ok(Some(Atom::Stateless(op))),
            _ => Ok(None),
        },
        Kind::Stateful => match trees_of_codelet(alloc, codelets, codelet)? {
            Some(trees) => match T::fit(alloc, &trees)? {
                Some(params) => Ok(Some(Atom::Stateful(params))),
                None => Ok(None),
            },
            None => Ok(None),
        },
    }
}

/// The atoms of all codelets, in their order: the operators of those without state, and for the trees of those with state
/// the parameters that the template fits to them. Where `MUL` is false, `*`, `/` and `%` do not fit; a hash always does.
pub fn match_all<T: AtomTemplate, const MUL: bool>(
    alloc: Global,
    codelets: &Codelets,
) -> Result<Atoms<T>, MatchFault>
    ensures atoms { IfOk result (λ a. map (λ atom. Some (atom_form T.trees_of atom)) a.list ≡ map (atom_of codelets.now) codelets.now.list) }
    ensures fit { OnOk result (first_outside T.fits MUL codelets.now ≡ None) }
    ensures refused { IfErr result (λ fault. IsMatchFault T.fits MUL codelets.now fault) }
{
    let mut list = Seq::new(alloc);
    for codelet in codelets.list() {
        match atom_for::<T, MUL>(alloc, codelets, codelet) {
            Ok(Some(atom)) => {
                if list.push(atom).is_err() {
                    return Err(MatchFault::Memory);
                }
            }
            Ok(None) => return Err(MatchFault::Outside(codelet.first)),
            Err(Memory) => return Err(MatchFault::Memory),
        }
    }
    Ok(Atoms { list })
}
