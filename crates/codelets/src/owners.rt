//! Which codelet of a list has a number: a place for each number below 1024.
ghost use Rattle.std.specs.Prelude.{◌≡◌, ℕ, ◌<◌, ◌≤◌, false, length, nat_eq, slice_index_or, true};
ghost use Rattle.std.specs.List.{All, list_any};
ghost use Rattle.codelets.specs.Lists.{AreApart, has};
ghost use Rattle.codelets.specs.Used.{AreOwners};

use dom_words::{Numbers, Seq};

/// The place of the codelet that has it, for each number.
pub type Owners = [u32; 1024];

// Gives numbers to the codelet at a place.
fn give(owners: &mut Owners, place: u32, numbers: &[u32])
    requires { All (λ a. a < 1024) numbers.now }
    ensures given { (a : ℕ) → has numbers.now a ≡ true → slice_index_or owners.new a 0 ≡ place }
    ensures kept { (a : ℕ) → has numbers.now a ≡ false → slice_index_or owners.new a 0 ≡ slice_index_or owners.old a 0 }
{
    for number in numbers {
        owners[*number as usize] = place;
    }
}

/// For each number of a codelet its place in the list.
pub fn owners_of(list: &Seq<Numbers>) -> Owners
    requires small { All (λ d. All (λ a. a < 1024) d) list.now }
    requires few { length list.now < 4294967296 }
    requires apart { AreApart list.now }
    ensures { AreOwners list.now result }
{
    let mut owners = [0; 1024];
    for k in 0..list.len() {
        give(&mut owners, k as u32, list.get(k).as_slice());
    }
    owners
}

// The place of the codelet that has a number; 0 where the number is too great for one.
fn owner(owners: &Owners, number: u32) -> u32
    ensures { result ≡ slice_index_or owners.now number 0 }
{
    if number < 1024 {
        owners[number as usize]
    } else {
        0
    }
}

/// The least place from `from` on that has one of the numbers, and `end` where none has.
pub fn next_place(owners: &Owners, numbers: &[u32], from: u32, end: u32) -> u32
    requires { from ≤ end }
    ensures low { from ≤ result }
    ensures high { result ≤ end }
    ensures least { (k : ℕ) → from ≤ k → k < result → list_any (λ a. nat_eq (slice_index_or owners.now a 0) k) numbers.now ≡ false }
{
    let mut next = end;
    for number in numbers {
        let place = owner(owners, *number);
        if from <= place && place < next {
            next = place;
        }
    }
    next
}
