//! Write flanks.

ghost use Rattle.std.specs.Prelude.{◌≡◌, ◌<◌, ◌^◌, ◌++◌, OnOk, length, map};
ghost use Rattle.dom_ast.specs.Flanks.{flank_form};
ghost use Rattle.state_flanks.specs.inner.Tables.{new_writes, noted as noted_table};

use dom_ast::{FlankItem, FlankList, Goal, Place};
use dom_words::Memory;

/// Notes the index of a target whose array has not been a target before.
pub(crate) fn note(target: Goal, written: &mut [Option<Place>])
    ensures { written.new ≡ noted_table written.old target }
{
    if let Goal::State { array, index } = target {
        let number = array as usize;
        if number < written.len() {
            written[number] = written[number].or(Some(index));
        }
    }
}

/// Puts a write flank at the end for each array that is a target, in order of declaration.
pub(crate) fn put_writes(written: &[Option<Place>], items: &mut FlankList) -> Result<(), Memory>
    requires { length written.now < 2 ^ 32 }
    ensures { OnOk result (map flank_form items.new ≡ map flank_form items.old ++ new_writes 0 written.now) }
{
    let mut array = 0;
    for place in written {
        if let Some(index) = place {
            items.push(FlankItem::Write {
                array,
                index: *index,
            })?;
        }
        array += 1;
    }
    Ok(())
}
