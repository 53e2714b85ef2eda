ghost use Rattle.std.specs.Prelude.{◌≡◌, ◌<◌, ◌&&◌, nat_lt, not, length, true};
ghost use Rattle.std.specs.List.{list_all};
ghost use Rattle.codelets.specs.Answer.{line_in};
ghost use Rattle.atom_match.specs.Classes.{container_of, fetched_by, flanks_at, makes_value, read_of, stored_by, write_of};
ghost use Rattle.codelets.specs.Lists.{has};

use codelets::{Codelets, Slot};
use dom_flat::{Line, Operand};

/// The flanks of an array in a class of statements: their index, the value of the read flank, and what the write flank
/// stores, if there is one.
#[derive(Clone, Copy, Debug, PartialEq, Eq)]
pub struct Flanks {
    pub index: Operand,
    pub read: u32,
    pub write: Option<Operand>,
}

/// The slot that is looked at: the number of its old word, the value of its read flank, and that of the other slot's.
#[derive(Clone, Copy, Debug, PartialEq, Eq)]
pub struct View {
    pub state: u32,
    pub read: u32,
    pub other: Option<u32>,
}

/// Whether a number is among those of a class's statements.
pub(crate) fn is_member(members: &[u32], number: u32) -> bool
    ensures { result ≡ has members.now number }
{
    for member in members {
        if number == *member {
            return true;
        }
    }
    false
}

/// The number of the first statement's value.
pub(crate) fn fields_of(codelets: &Codelets) -> u32
    ensures { result ≡ length codelets.now.flat.fields }
{
    codelets.flat().fields.len() as u32
}

/// Whether one of these statements makes a value.
pub(crate) fn makes(codelets: &Codelets, members: &[u32], value: u32) -> bool
    ensures { result ≡ makes_value (length codelets.now.flat.fields) members.now value }
{
    let fields = fields_of(codelets);
    value >= fields && is_member(members, value - fields)
}

/// The container of a value that has one; of any other the number of containers.
pub fn container(codelets: &Codelets, value: u32) -> u32
    ensures { result ≡ container_of codelets.now.values value }
{
    match codelets.container(value) {
        Some(at) => at,
        None => codelets.containers(),
    }
}

// The value that the read flank of an array makes, where the statement with this number is that flank.
fn fetched_value(codelets: &Codelets, array: u32, number: u32) -> Option<u32>
    requires { number < length codelets.now.flat.lines }
    ensures { result ≡ fetched_by (length codelets.now.flat.fields) array number (line_in codelets.now.table number) }
{
    match codelets.line(number) {
        Some(Line::Fetch { array: fetched, .. }) if *fetched == array => {
            Some(fields_of(codelets) + number)
        }
        _ => None,
    }
}

// The value of the read flank of an array among these statements, and 0 where there is none.
fn read_value(codelets: &Codelets, members: &[u32], array: u32) -> u32
    requires { list_all (λ b. nat_lt b (length codelets.now.flat.lines)) members.now ≡ true }
    ensures { result ≡ read_of (length codelets.now.flat.fields) codelets.now.table members.now array }
{
    for number in members {
        if let Some(value) = fetched_value(codelets, array, *number) {
            return value;
        }
    }
    0
}

// What the write flank of an array stores, where the statement with this number is that flank.
fn stored_operand(codelets: &Codelets, array: u32, number: u32) -> Option<Operand>
    ensures { result ≡ stored_by array (line_in codelets.now.table number) }
{
    match codelets.line(number) {
        Some(
            Line::Store {
                array: stored,
                value,
                ..
            },
        ) if *stored == array => Some(*value),
        _ => None,
    }
}

// What the write flank of an array among these statements stores.
fn written_operand(codelets: &Codelets, members: &[u32], array: u32) -> Option<Operand>
    ensures { result ≡ write_of codelets.now.table members.now array }
{
    for number in members {
        if let Some(operand) = stored_operand(codelets, array, *number) {
            return Some(operand);
        }
    }
    None
}

/// The flanks of a slot among these statements.
pub(crate) fn flanks_of(codelets: &Codelets, members: &[u32], slot: Slot) -> Flanks
    requires { list_all (λ b. nat_lt b (length codelets.now.flat.lines)) members.now ≡ true }
    ensures { result ≡ flanks_at codelets.now members.now slot }
{
    Flanks {
        index: slot.index,
        read: read_value(codelets, members, slot.array),
        write: written_operand(codelets, members, slot.array),
    }
}
