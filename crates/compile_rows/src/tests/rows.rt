//! Tables are texts with one row a line: what is asked and, behind an arrow, what is wanted.

use std::test::Fail;

// What a row asks and what it wants.
pub(crate) fn halves(row: &str) -> (&str, &str) {
    match row.split_once(" => ") {
        Some((asked, wanted)) => (asked, wanted),
        None => (row, ""),
    }
}

// What stands before and behind the first bar.
pub(crate) fn parts(asked: &str) -> (&str, &str) {
    match asked.split_once("|") {
        Some((first, rest)) => (first, rest),
        None => (asked, ""),
    }
}

// A text so many times.
pub(crate) fn put_times(text: &mut String, part: &str, count: u32) -> Result<(), Fail> {
    for _k in 0..count {
        text.push_str(part)?;
    }
    Ok(())
}
