use dom_words::Memory;
use std::alloc::Global;
use std::marker::Model;

/// A set of numbers below a size, seen as the list of them in the order in which they were added.
#[derive(Drop)]
pub(crate) struct NumberSet {
    // whether each number below the size is in it
    marks: Vec<bool>,
    numbers: Vec<u32>,
}

impl Model for NumberSet {
    ghost use Rattle.std.specs.Prelude.{length};
    ghost use Rattle.banzai_config.specs.Sets.{Numbers, AreMarks};

    ghost Value = { Numbers };

    ghost view = { λ s. record { size = length s.marks.items; numbers = s.numbers.items } };

    ghost invariant = { λ s. AreMarks s.marks.items s.numbers.items };
}

ghost use Rattle.std.specs.Prelude.{◌≡◌, ◌<◌, [], ◌∷◌, ◌++◌, IfOk, OnOk, length, not, true};
ghost use Rattle.std.specs.List.{list_all};
ghost use Rattle.banzai_config.specs.Legal.{are_apart, are_below, are_known, are_new, has, is_known};
ghost use Rattle.banzai_config.specs.Sets.{AreUnmarked};

impl NumberSet {
    /// No numbers, with room for those below a size.
    pub(crate) fn new(alloc: Global, size: usize) -> Result<NumberSet, Memory>
        ensures { IfOk result (λ s. s ≡ record { size = size; numbers = [] }) }
    {
        Ok(NumberSet {
            marks: vec![in alloc; false; size].map_err(|_| Memory)?,
            numbers: Vec::new(alloc),
        })
    }

    pub(crate) fn has(&self, number: u32) -> bool
        ensures { result ≡ has number self.now.numbers }
    {
        match self.marks.as_slice().get(number as usize) {
            Some(mark) => *mark,
            None => false,
        }
    }

    pub(crate) fn add(&mut self, number: u32) -> Result<(), Memory>
        requires { number < self.old.size }
        ensures size { self.new.size ≡ self.old.size }
        ensures numbers { OnOk result (self.new.numbers ≡ self.old.numbers ++ number ∷ []) }
    {
        self.numbers.push(number).map_err(|_| Memory)?;
        self.marks[number as usize] = true;
        Ok(())
    }

    pub(crate) fn add_all(&mut self, numbers: &[u32]) -> Result<(), Memory>
        requires { are_below self.old.size numbers.now ≡ true }
        ensures size { self.new.size ≡ self.old.size }
        ensures numbers { OnOk result (self.new.numbers ≡ self.old.numbers ++ numbers.now) }
    {
        for number in numbers {
            self.add(*number)?;
        }
        Ok(())
    }

    /// Adds numbers as long as they are new, and answers whether all of them were.
    pub(crate) fn add_new(&mut self, numbers: &[u32]) -> Result<bool, Memory>
        requires { are_below self.old.size numbers.now ≡ true }
        ensures size { self.new.size ≡ self.old.size }
        ensures new { IfOk result (λ new. new ≡ are_new self.old.numbers numbers.now) }
        ensures numbers { IfOk result (λ new. new ≡ true → self.new.numbers ≡ self.old.numbers ++ numbers.now) }
    {
        for number in numbers {
            if self.has(*number) {
                return Ok(false);
            }
            self.add(*number)?;
        }
        Ok(true)
    }

    /// Whether none of these numbers is in it.
    pub(crate) fn has_none(&self, numbers: &[u32]) -> bool
        ensures { result ≡ are_apart self.now.numbers numbers.now }
    {
        numbers.iter().all(|number| !self.has(*number))
    }

    /// Whether each of these containers is a field's or in the set.
    pub(crate) fn are_known(&self, fields: u32, numbers: &[u32]) -> bool
        ensures { result ≡ are_known fields self.now.numbers numbers.now }
    {
        numbers
            .iter()
            .all(|number| *number < fields || self.has(*number))
    }

    /// Whether none of these containers is a field's or in the set.
    pub(crate) fn has_no_known(&self, fields: u32, numbers: &[u32]) -> bool
        ensures { result ≡ list_all (λ c. not (is_known fields self.now.numbers c)) numbers.now }
    {
        numbers
            .iter()
            .all(|number| *number >= fields && !self.has(*number))
    }

    /// Its numbers in the order in which they were added.
    pub(crate) fn as_slice(&self) -> &[u32]
        ensures numbers { result.now ≡ self.now.numbers }
        ensures below { are_below self.now.size self.now.numbers ≡ true }
    {
        let _ = &self.marks;
        self.numbers.as_slice()
    }

    /// Takes all numbers out.
    pub(crate) fn clear(&mut self)
        ensures { self.new ≡ record { size = self.old.size; numbers = [] } }
    {
        unmark(&mut self.marks, &self.numbers);
        self.numbers.clear();
    }
}

// Takes the marks of these numbers away.
fn unmark(marks: &mut [bool], numbers: &[u32])
    requires { are_below (length marks.old) numbers.now ≡ true }
    ensures { AreUnmarked marks.old marks.new numbers.now }
{
    for number in numbers {
        marks[*number as usize] = false;
    }
}
