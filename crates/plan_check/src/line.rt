ghost use Rattle.std.specs.Prelude.{◌≡◌, ◌≢◌, ◌≤◌, ◌++◌, ℕ, IfNone, List, length};
ghost use Rattle.plan_check.specs.PlanText.{plan_line};
ghost use Rattle.std.specs.Option.{option_map};
ghost use Rattle.plan_check.specs.Fronts.{number_form, rest_form};
ghost use Rattle.plan_check.specs.Reader.{after, digits_of, has_no_zero, line_end, line_from, number_from, size_of_digits, stage_after};

use dom_words::read_count;

/// A number at the front of a text, and what stands behind it.
#[derive(Clone, Copy)]
pub(crate) struct Number<'a> {
    pub(crate) value: u32,
    pub(crate) rest: &'a [u8],
}

// What stands behind a front.
fn after<'a>(front: &[u8], text: &'a [u8]) -> Option<&'a [u8]>
    ensures { option_map rest_form result ≡ after front.now text.now }
{
    match front {
        [] => Some(text),
        [b, front @ ..] => match text {
            [] => None,
            [c, text @ ..] => { if *b == *c { after(front, text) } else { None } }
        },
    }
}

#[tactic(auto, using(crate::proofs::Numbers::sizes))]
fn digit_count(text: &[u8]) -> usize
    ensures value { result ≡ size_of_digits text.now }
    ensures within { result ≤ length text.now }
{
    text.iter().take_while(|b| b.is_ascii_digit()).count()
}

fn has_no_zero(digits: &[u8]) -> bool
    ensures { result ≡ has_no_zero digits.now }
{
    match digits {
        [] => false,
        [d, rest @ ..] => *d != b'0' || rest.is_empty(),
    }
}

// The number at the front of a text, in decimals without leading zeros.
fn read_number(text: &[u8]) -> Option<Number<'_>>
    ensures { option_map number_form result ≡ number_from text.now }
{
    let size = digit_count(text);
    let digits = &text[..size];
    if has_no_zero(digits) {
        match read_count(digits) {
            None => None,
            Some(value) => Some(Number {
                value,
                rest: &text[size..],
            }),
        }
    } else {
        None
    }
}

// The line feed behind a stage.
fn line_end(number: Number<'_>, depth: u32) -> Option<Number<'_>>
    ensures { option_map number_form result ≡ line_end depth (number_form number.entry) }
{
    if 1 <= number.value && number.value <= depth {
        match after(b"\n", number.rest) {
            None => None,
            Some(rest) => Some(Number {
                value: number.value,
                rest,
            }),
        }
    } else {
        None
    }
}

// The stage behind the least statement number.
fn stage_after(number: Number<'_>, first: u32, depth: u32) -> Option<Number<'_>>
    ensures { option_map number_form result ≡ stage_after first depth (number_form number.entry) }
{
    if number.value == first {
        match after(b",", number.rest) {
            None => None,
            Some(text) => match read_number(text) {
                None => None,
                Some(stage) => line_end(stage, depth),
            },
        }
    } else {
        None
    }
}

// The line of a codelet at the front of a text.
fn front_line(text: &[u8], first: u32, depth: u32) -> Option<Number<'_>>
    ensures { option_map number_form result ≡ line_from first depth text.now }
{
    match after(b"codelet,", text) {
        None => None,
        Some(text) => match read_number(text) {
            None => None,
            Some(number) => stage_after(number, first, depth),
        },
    }
}

/// The stage in the line of a codelet at the front of a text, and what stands behind the line.
pub(crate) fn line_at_front(text: &[u8], first: u32, depth: u32) -> Option<Number<'_>>
    ensures line { option_map number_form result ≡ line_from first depth text.now }
    ensures none { IfNone result ((stage : ℕ) (more : List ℕ) → 1 ≤ stage → stage ≤ depth → text.now ≢ plan_line first stage ++ more) }
{
    front_line(text, first, depth)
}
