ghost use Rattle.std.specs.Prelude.{◌≡◌, ◌+◌, ◌<◌, IfOk, length, nat_lt, true, not, ◌&&◌, ◌||◌, [], ◌∷◌, ◌++◌};
ghost use Rattle.codelets.specs.Lists.{has};
ghost use Rattle.std.specs.List.{list_any, range_with_len};
ghost use Rattle.codelets.specs.ByRows.{flanks_of, linked_by, reaches_in};
ghost use Rattle.codelets.specs.Linked.{class_of, is_first, is_inner, is_so, is_stateful, is_used_outside, is_written, together, twins_of, uses_value};
ghost use Rattle.dom_flat.specs.Lines.{is_fetch, is_flank, is_value, operands_of, stores, uses};

use dep_graph::Graph;
use dom_flat::{Flat, Line, Operand};
use dom_words::{Memory, Numbers, Seq};
use std::alloc::Global;

/// The numbers 0 to `end` - 1.
pub fn numbers_below(alloc: Global, end: u32) -> Result<Vec<u32>, Memory>
    ensures { IfOk result (λ v. v.items ≡ range_with_len 0 end) }
{
    let mut numbers = Vec::new(alloc);
    for k in 0..end {
        add(&mut numbers, k)?;
    }
    Ok(numbers)
}

/// Puts a number at the end.
pub fn add(numbers: &mut Vec<u32>, number: u32) -> Result<(), Memory>
    ensures { IfOk result (λ _. numbers.new.items ≡ numbers.old.items ++ number ∷ []) }
{
    match numbers.push(number) {
        Ok(()) => Ok(()),
        Err(_) => Err(Memory),
    }
}

/// Puts a number at the front.
pub fn add_first(numbers: &mut Vec<u32>, number: u32) -> Result<(), Memory>
    ensures { IfOk result (λ _. numbers.new.items ≡ number ∷ numbers.old.items) }
{
    match numbers.insert(0, number) {
        Ok(()) => Ok(()),
        Err(_) => Err(Memory),
    }
}

/// Whether a number is in a list.
pub fn is_in(numbers: &[u32], number: u32) -> bool
    ensures { result ≡ has numbers.now number }
{
    numbers.iter().any(|x| number == *x)
}

/// Whether a statement reaches another; a number past the last reaches nothing.
pub fn reaches_at(graph: &Graph, a: u32, b: u32) -> bool
    ensures { result ≡ reaches_in graph.now a b }
{
    let a = a as usize;
    let b = b as usize;
    a < graph.size() && (b < graph.size() && graph.reaches(a, b))
}

/// Whether two statements reach each other.
pub fn are_together(flat: &Flat, graph: &Graph, a: u32, b: u32) -> bool
    ensures { result ≡ together (linked_by flat.now graph.now) a b }
{
    reaches_at(graph, a, b) && reaches_at(graph, b, a)
}

/// The class of its least statement, in order.
pub fn class_with(alloc: Global, flat: &Flat, graph: &Graph, a: u32) -> Result<Numbers, Memory>
    requires within { a < length flat.now.lines }
    requires least { is_first (linked_by flat.now graph.now) a ≡ true }
    ensures { IfOk result (λ c. c ≡ class_of (linked_by flat.now graph.now) a) }
{
    let mut class = Seq::new(alloc);
    for b in a..flat.lines.len() as u32 {
        if are_together(flat, graph, a, b) {
            class.push(b)?;
        }
    }
    Ok(class)
}

/// Whether a statement is the least of its class.
pub fn is_least(flat: &Flat, graph: &Graph, numbers: &[u32], a: u32) -> bool
    requires { numbers.now ≡ range_with_len 0 (length flat.now.lines) }
    ensures { result ≡ is_first (linked_by flat.now graph.now) a }
{
    !any_before(flat, graph, numbers, a)
}

// Whether a number is less and together with a statement.
fn is_before(flat: &Flat, graph: &Graph, a: u32, b: u32) -> bool
    ensures { result ≡ (nat_lt b a && together (linked_by flat.now graph.now) a b) }
{
    b < a && are_together(flat, graph, a, b)
}

fn any_before(flat: &Flat, graph: &Graph, numbers: &[u32], a: u32) -> bool
    ensures { result ≡ list_any (λ b. nat_lt b a && together (linked_by flat.now graph.now) a b) numbers.now }
{
    numbers.iter().any(|b| is_before(flat, graph, a, *b))
}

// A read flank or a write flank.
fn flank(line: &Line) -> bool
    ensures { result ≡ is_flank line.now }
{
    matches!(line, Line::Fetch { .. } | Line::Store { .. })
}

/// Whether the statement with a number is a flank.
pub fn flank_at(flat: &Flat, graph: &Graph, number: u32) -> bool
    ensures { result ≡ is_so (linked_by flat.now graph.now) is_flank number }
{
    let number = number as usize;
    number < flat.lines.len() && flank(flat.lines.get(number))
}

/// Whether a statement of a codelet is a flank.
pub fn any_flank(flat: &Flat, graph: &Graph, codelet: &[u32]) -> bool
    ensures { result ≡ list_any (is_so (linked_by flat.now graph.now) is_flank) codelet.now }
{
    codelet.iter().any(|number| flank_at(flat, graph, *number))
}

// The numbers of the flanks.
fn flank_numbers(alloc: Global, flat: &Flat, graph: &Graph) -> Result<Numbers, Memory>
    ensures { IfOk result (λ f. f ≡ flanks_of (linked_by flat.now graph.now)) }
{
    let mut flanks = Seq::new(alloc);
    for b in 0..flat.lines.len() as u32 {
        if flank_at(flat, graph, b) {
            flanks.push(b)?;
        }
    }
    Ok(flanks)
}

// Whether the class of a statement has a flank.
fn in_state(flat: &Flat, graph: &Graph, flanks: &[u32], a: u32) -> bool
    requires { flanks.now ≡ flanks_of (linked_by flat.now graph.now) }
    ensures { result ≡ is_stateful (linked_by flat.now graph.now) a }
{
    any_beside(flat, graph, flanks, a)
}

// Whether one of the numbers is together with a statement.
fn any_beside(flat: &Flat, graph: &Graph, numbers: &[u32], a: u32) -> bool
    ensures { result ≡ list_any (together (linked_by flat.now graph.now) a) numbers.now }
{
    numbers.iter().any(|b| are_together(flat, graph, a, *b))
}

/// Whether an operand is a value.
pub fn names(operand: Operand, value: u32) -> bool
    ensures { result ≡ is_value value operand }
{
    match operand {
        Operand::Const(_) => false,
        Operand::Value(used) => value == used,
    }
}

/// Whether a value is among operands.
pub fn any_names(operands: &[Operand], value: u32) -> bool
    ensures { result ≡ uses value operands.now }
{
    operands.iter().any(|operand| names(*operand, value))
}

/// Whether a statement uses a value.
pub fn line_names(line: &Line, value: u32) -> bool
    ensures { result ≡ uses_value value line.now }
{
    match line {
        Line::Fetch { index, .. } => names(*index, value),
        Line::Store {
            index,
            value: stored,
            ..
        } => names(*index, value) || names(*stored, value),
        Line::Un { a, .. } => names(*a, value),
        Line::Bin { a, b, .. } => names(*a, value) || names(*b, value),
        Line::Cond { c, a, b } => names(*c, value) || names(*a, value) || names(*b, value),
        Line::Hash { args, .. } => any_names(args.as_slice(), value),
    }
}

// A write flank that stores a value.
fn is_store_of(line: &Line, value: u32) -> bool
    ensures { result ≡ stores value line.now }
{
    match line {
        Line::Store { value: stored, .. } => names(*stored, value),
        _ => false,
    }
}

// Whether the statement with a number is a write flank that stores a value.
fn stores_at(flat: &Flat, graph: &Graph, number: u32, value: u32) -> bool
    ensures { result ≡ is_so (linked_by flat.now graph.now) (stores value) number }
{
    let number = number as usize;
    number < flat.lines.len() && is_store_of(flat.lines.get(number), value)
}

/// Whether the statement with a number uses a value.
pub fn uses_at(flat: &Flat, graph: &Graph, number: u32, value: u32) -> bool
    ensures { result ≡ is_so (linked_by flat.now graph.now) (uses_value value) number }
{
    let number = number as usize;
    number < flat.lines.len() && line_names(flat.lines.get(number), value)
}

/// The value that a statement makes.
pub fn value_of(flat: &Flat, a: u32) -> u32
    requires { a < 1024 }
    ensures { result ≡ length flat.now.fields + a }
{
    flat.fields.len() as u32 + a
}

// Whether a write flank of its class stores the value of a statement.
fn is_stored(flat: &Flat, graph: &Graph, numbers: &[u32], a: u32) -> bool
    requires numbers { numbers.now ≡ range_with_len 0 (length flat.now.lines) }
    requires small { a < 1024 }
    ensures { result ≡ is_written (linked_by flat.now graph.now) a }
{
    let value = value_of(flat, a);
    any_store_beside(flat, graph, numbers, a, value)
}

// Whether a number is that of a write flank that stores a value, and together with a statement.
fn is_store_beside(flat: &Flat, graph: &Graph, a: u32, b: u32, value: u32) -> bool
    ensures { result ≡ (is_so (linked_by flat.now graph.now) (stores value) b && together (linked_by flat.now graph.now) a b) }
{
    stores_at(flat, graph, b, value) && are_together(flat, graph, a, b)
}

fn any_store_beside(flat: &Flat, graph: &Graph, numbers: &[u32], a: u32, value: u32) -> bool
    ensures { result ≡ list_any (λ b. is_so (linked_by flat.now graph.now) (stores value) b && together (linked_by flat.now graph.now) a b) numbers.now }
{
    numbers
        .iter()
        .any(|b| is_store_beside(flat, graph, a, *b, value))
}

// Whether a statement makes an inner value.
fn is_within(flat: &Flat, graph: &Graph, numbers: &[u32], flanks: &[u32], a: u32) -> bool
    requires numbers { numbers.now ≡ range_with_len 0 (length flat.now.lines) }
    requires flanks { flanks.now ≡ flanks_of (linked_by flat.now graph.now) }
    requires small { a < 1024 }
    ensures { result ≡ is_inner (linked_by flat.now graph.now) a }
{
    in_state(flat, graph, flanks, a)
        && (!flank_at(flat, graph, a) && !is_stored(flat, graph, numbers, a))
}

// Whether an output or a statement outside its class uses the value of a statement.
fn is_asked(flat: &Flat, graph: &Graph, numbers: &[u32], a: u32) -> bool
    requires numbers { numbers.now ≡ range_with_len 0 (length flat.now.lines) }
    requires small { a < 1024 }
    ensures { result ≡ is_used_outside (linked_by flat.now graph.now) a }
{
    let value = value_of(flat, a);
    any_names(flat.outputs.as_slice(), value) || any_use_apart(flat, graph, numbers, a, value)
}

// Whether a number is not together with a statement, and uses a value.
fn is_use_apart(flat: &Flat, graph: &Graph, a: u32, b: u32, value: u32) -> bool
    ensures { result ≡ (not (together (linked_by flat.now graph.now) a b) && is_so (linked_by flat.now graph.now) (uses_value value) b) }
{
    !are_together(flat, graph, a, b) && uses_at(flat, graph, b, value)
}

fn any_use_apart(flat: &Flat, graph: &Graph, numbers: &[u32], a: u32, value: u32) -> bool
    ensures { result ≡ list_any (λ b. not (together (linked_by flat.now graph.now) a b) && is_so (linked_by flat.now graph.now) (uses_value value) b) numbers.now }
{
    numbers
        .iter()
        .any(|b| is_use_apart(flat, graph, a, *b, value))
}

// Whether one of the statements uses a value.
fn any_use(flat: &Flat, graph: &Graph, statements: &[u32], value: u32) -> bool
    ensures { result ≡ list_any (is_so (linked_by flat.now graph.now) (uses_value value)) statements.now }
{
    statements.iter().any(|b| uses_at(flat, graph, *b, value))
}

// Whether a statement gets a twin, where later ones have theirs.
fn needs_twin(
    flat: &Flat,
    graph: &Graph,
    numbers: &[u32],
    flanks: &[u32],
    a: u32,
    later: &[u32],
) -> bool
    requires numbers { numbers.now ≡ range_with_len 0 (length flat.now.lines) }
    requires flanks { flanks.now ≡ flanks_of (linked_by flat.now graph.now) }
    requires small { a < 1024 }
    ensures { result ≡ (is_inner (linked_by flat.now graph.now) a && (is_used_outside (linked_by flat.now graph.now) a || list_any (is_so (linked_by flat.now graph.now) (uses_value (length flat.now.fields + a))) later.now)) }
{
    is_within(flat, graph, numbers, flanks, a)
        && (is_asked(flat, graph, numbers, a) || any_use(flat, graph, later, value_of(flat, a)))
}

/// The statements that have twins, in order. Goes from the back, so that a twin's operands get theirs.
pub fn find_twins(
    alloc: Global,
    flat: &Flat,
    graph: &Graph,
    numbers: &[u32],
) -> Result<Vec<u32>, Memory>
    requires { numbers.now ≡ range_with_len 0 (length flat.now.lines) }
    ensures { IfOk result (λ v. v.items ≡ twins_of (linked_by flat.now graph.now)) }
{
    let count = flat.lines.len();
    let flanks = flank_numbers(alloc, flat, graph)?;
    let mut twins = Vec::new(alloc);
    for k in 0..count {
        let a = (count - 1 - k) as u32;
        if needs_twin(flat, graph, numbers, flanks.as_slice(), a, twins.as_slice()) {
            add_first(&mut twins, a)?;
        }
    }
    Ok(twins)
}
