/// A state word that a cycle touched: the stage whose atom holds the array, counted from 1, the array, and the element.
#[derive(Clone, Copy, Debug, PartialEq, Eq)]
pub struct Touch {
    pub stage: u32,
    pub array: u32,
    pub index: u32,
}
