ghost use Rattle.std.specs.Prelude.{◌≡◌, ◌<◌, ◌≤◌, [], length, map, take, true, slice_index, slice_index_or, IfOk};
ghost use Rattle.dom_words.specs.Operators.{bin_word};
ghost use Rattle.dom_words.specs.State.{IsStateOf, are_lengths, array_of, fetched, started, stored};
ghost use Rattle.dom_ast.specs.Kept.{goal_within, ops_within, part_within, parts_within, place_within};
ghost use Rattle.dom_ast.specs.Meaning.{acted, all_acted, all_chosen, assigned, entering, folded, is_chosen, is_guard_true, names_in, one_packet, place_word, value_in, values};
ghost use Rattle.dom_ast.specs.Resolved.{act_form, act_forms, bodies_form, call, form, forms, guard_form};
ghost use Rattle.dom_ast.specs.inner.PartOps.{op_forms};
ghost use Rattle.dom_ast.specs.Serial.{IsPlaceOf};
ghost use Rattle.dom_ast.specs.inner.Runs.{act_within, acts_within, all_run, bodies_within, guard_within, picked, ranges_over};

use crate::checked::{Act, ActList, BodyList, Checked};
use crate::part::{Goal, Part, PartList, PartOps, Place};
use dom_words::{ArrayList, BinOp, HashName, HashUnits, Memory, Packet, apply_bin, apply_un};
use std::alloc::Global;
use std::marker::Model;

// The words of arrays, of which each has a word or more.
#[derive(Drop)]
struct State {
    arrays: Vec<Packet>,
}

impl Model for State {
    ghost use Rattle.std.specs.Prelude.{◌≡◌, List, ℕ, true};
    ghost use Rattle.dom_ast.specs.inner.Runs.{are_filled};

    ghost Value = { List (List ℕ) };

    ghost view = { λ s. s.arrays.items };

    ghost invariant = { λ s. are_filled s.arrays.items ≡ true };
}

impl State {
    // The words that declared arrays start with.
    fn new(alloc: Global, declared: &ArrayList) -> Result<State, Memory>
        requires { are_lengths declared.now ≡ true }
        ensures { IfOk result (λ state. state ≡ started declared.now) }
    {
        let mut arrays = Vec::new(alloc);
        for k in 0..declared.len() {
            let array = declared.get(k);
            let words = Packet::filled(alloc, array.length as usize, array.init)?;
            arrays.push(words).map_err(|_| Memory)?;
        }
        Ok(State { arrays })
    }

    // The word of an array at an index.
    fn word(&self, array: usize, index: u32) -> u32
        requires array { array < length self.now }
        requires index { index < length (array_of self.now array) }
        ensures { result ≡ slice_index (array_of self.now array) index }
    {
        self.arrays[array].words()[index as usize]
    }

    // The word of an array that an index reaches.
    fn fetch(&self, array: usize, index: u32) -> u32
        requires { array < length self.now }
        ensures { result ≡ fetched self.now array index }
    {
        let words = self.arrays[array].words();
        words[index as usize % words.len()]
    }

    // Puts a word in the place of the one that an index reaches.
    fn store(&mut self, array: usize, index: u32, word: u32)
        requires { array < length self.old }
        ensures words { self.new ≡ stored self.old array index word }
        ensures sizes { map length self.new ≡ map length self.old }
    {
        let words = self.arrays[array].words_mut();
        words[index as usize % words.len()] = word;
    }
}

// The index that a place stands for.
fn index_at(place: Place, words: &[u32]) -> u32
    requires { place_within (ranges_over words.now []) place ≡ true }
    ensures { result ≡ place_word place words.now }
{
    match place {
        Place::Word(word) => word,
        Place::Field(field) => words[field as usize],
    }
}

// The number of arguments of a call, whose forms are in range on this packet and state.
fn count_of_args(unit: HashName, args: &PartList, words: &[u32], state: &State) -> usize
    requires { part_within (ranges_over words.now state.now) (call unit (forms args.now)) ≡ true }
    ensures count { result ≡ length args.now }
    ensures few { length args.now ≤ 4 }
    ensures met { length args.now ≡ unit.args }
    ensures within { parts_within (ranges_over words.now state.now) (forms args.now) ≡ true }
{
    let _ = unit;
    let _ = words;
    let _ = state;
    args.len()
}

// Expression `k`, which is in range on this packet and state as all of them are.
fn part_at<'a>(parts: &'a PartList, k: usize, words: &[u32], state: &State) -> &'a Part
    requires inside { k < length parts.now }
    requires within { parts_within (ranges_over words.now state.now) (forms parts.now) ≡ true }
    ensures same { result.now ≡ slice_index_or parts.now k result.now }
    ensures within { part_within (ranges_over words.now state.now) (form result.now) ≡ true }
{
    let _ = words;
    let _ = state;
    parts.get(k)
}

// Operator `k` with its operand, which is in range on this packet and state as all of them are.
fn operand_at<'a>(rest: &'a PartOps, k: usize, words: &[u32], state: &State) -> &'a (BinOp, Part)
    requires inside { k < length rest.now }
    requires within { ops_within (ranges_over words.now state.now) (op_forms rest.now) ≡ true }
    ensures same { result.now ≡ slice_index_or rest.now k result.now }
    ensures within { part_within (ranges_over words.now state.now) (form result.now.1) ≡ true }
{
    let _ = words;
    let _ = state;
    rest.get(k)
}

// The word of an expression; that of a number or a field without another call.
#[inline(always)]
#[cycle(eval)]
fn word_of<H: HashUnits>(part: &Part, words: &[u32], state: &State, hash: &H) -> u32
    requires { part_within (ranges_over words.now state.now) (form part.now) ≡ true }
    ensures { result ≡ value_in (H.meaning hash.now) (entering words.now state.now) (form part.now) }
{
    match part {
        Part::Number(word) => *word,
        Part::Field(field) => words[*field as usize],
        _ => eval(part, words, state, hash),
    }
}

// The word of an expression on a packet and a state.
#[cycle(eval)]
fn eval<H: HashUnits>(part: &Part, words: &[u32], state: &State, hash: &H) -> u32
    requires { part_within (ranges_over words.now state.now) (form part.now) ≡ true }
    ensures { result ≡ value_in (H.meaning hash.now) (entering words.now state.now) (form part.now) }
{
    match part {
        Part::Number(word) => *word,
        Part::Field(field) => words[*field as usize],
        Part::State { array, index } => state.fetch(*array as usize, index_at(*index, words)),
        Part::Fresh(_) => unreachable!(),
        Part::Made(_) => unreachable!(),
        Part::Call { unit, args } => {
            let mut buffer = [0; 4];
            let count = count_of_args(*unit, args, words, state);
            eval_all(args, words, state, hash, &mut buffer);
            hash.apply(*unit, &buffer[..count])
        }
        Part::Un { op, arg } => apply_un(*op, word_of(arg, words, state, hash)),
        Part::Chain { first, rest } => {
            let word = word_of(first, words, state, hash);
            eval_rest(word, rest, words, state, hash)
        }
        Part::Cond { test, yes, no } => {
            if word_of(test, words, state, hash) != 0 {
                word_of(yes, words, state, hash)
            } else {
                word_of(no, words, state, hash)
            }
        }
    }
}

// The words of expressions, at the front of `out`.
#[cycle(eval)]
fn eval_all<H: HashUnits>(parts: &PartList, words: &[u32], state: &State, hash: &H, out: &mut [u32])
    requires within { parts_within (ranges_over words.now state.now) (forms parts.now) ≡ true }
    requires room { length parts.now ≤ length out.old }
    ensures { take (length parts.now) out.new ≡ values (H.meaning hash.now) (names_in (entering words.now state.now)) (forms parts.now) }
{
    for k in 0..parts.len() {
        out[k] = word_of(part_at(parts, k, words, state), words, state, hash);
    }
}

// A word after operators with their operands, from the left.
#[inline(always)]
#[cycle(eval)]
fn eval_rest<H: HashUnits>(
    first: u32,
    rest: &PartOps,
    words: &[u32],
    state: &State,
    hash: &H,
) -> u32
    requires { ops_within (ranges_over words.now state.now) (op_forms rest.now) ≡ true }
    ensures { result ≡ folded (H.meaning hash.now) (names_in (entering words.now state.now)) first (op_forms rest.now) }
{
    let mut word = first;
    for k in 0..rest.len() {
        word = eval_next(word, operand_at(rest, k, words, state), words, state, hash);
    }
    word
}

// A word after one operator with its operand.
#[inline(always)]
#[cycle(eval)]
fn eval_next<H: HashUnits>(
    word: u32,
    operand: &(BinOp, Part),
    words: &[u32],
    state: &State,
    hash: &H,
) -> u32
    requires { part_within (ranges_over words.now state.now) (form operand.now.1) ≡ true }
    ensures { result ≡ bin_word operand.now.0 word (value_in (H.meaning hash.now) (entering words.now state.now) (form operand.now.1)) }
{
    let (op, part) = operand;
    apply_bin(*op, word, word_of(part, words, state, hash))
}

// Gives a target a word.
fn assign(target: Goal, word: u32, words: &mut [u32], state: &mut State)
    requires { goal_within (ranges_over words.old state.old) target ≡ true }
    ensures env { entering words.new state.new ≡ assigned target word (entering words.old state.old) }
    ensures sizes { map length state.new ≡ map length state.old }
{
    match target {
        Goal::Field(field) => words[field as usize] = word,
        Goal::State { array, index } => {
            let index = index_at(index, words);
            state.store(array as usize, index, word);
        }
        Goal::Fresh(_) => unreachable!(),
    }
}

// Statement `k`, which is in range on this packet and state as all of them are.
fn act_at<'a>(acts: &'a ActList, k: usize, words: &[u32], state: &State) -> &'a Act
    requires inside { k < length acts.now }
    requires within { acts_within (ranges_over words.now state.now) (act_forms acts.now) ≡ true }
    ensures same { result.now ≡ slice_index_or acts.now k result.now }
    ensures within { act_within (ranges_over words.now state.now) (act_form result.now) ≡ true }
{
    let _ = words;
    let _ = state;
    acts.get(k)
}

// Does a statement.
#[cycle(run)]
fn run<H: HashUnits>(act: &Act, words: &mut [u32], state: &mut State, hash: &H)
    requires { act_within (ranges_over words.old state.old) (act_form act.now) ≡ true }
    ensures env { entering words.new state.new ≡ acted (H.meaning hash.now) (act_form act.now) (entering words.old state.old) }
    ensures sizes { map length state.new ≡ map length state.old }
{
    match act {
        Act::Assign { target, value } => {
            let word = word_of(value, words, state, hash);
            assign(*target, word, words, state);
        }
        Act::If { test, yes, no } => {
            if eval(test, words, state, hash) != 0 {
                run_all(yes, words, state, hash);
            } else {
                run_all(no, words, state, hash);
            }
        }
    }
}

// Does statements in order.
#[cycle(run)]
fn run_all<H: HashUnits>(acts: &ActList, words: &mut [u32], state: &mut State, hash: &H)
    requires { acts_within (ranges_over words.old state.old) (act_forms acts.now) ≡ true }
    ensures env { entering words.new state.new ≡ all_acted (H.meaning hash.now) (act_forms acts.now) (entering words.old state.old) }
    ensures sizes { map length state.new ≡ map length state.old }
{
    for k in 0..acts.len() {
        run(act_at(acts, k, words, state), words, state, hash);
    }
}

// Transaction `k`, which is in range on this packet and state as all of them are.
fn body_at<'a>(
    bodies: &'a BodyList,
    k: usize,
    words: &[u32],
    state: &State,
) -> &'a (Option<Part>, ActList)
    requires inside { k < length bodies.now }
    requires within { bodies_within (ranges_over words.now state.now) (bodies_form bodies.now) ≡ true }
    ensures same { result.now ≡ slice_index_or bodies.now k result.now }
    ensures guard { guard_within (ranges_over words.now state.now) (guard_form result.now.0) ≡ true }
    ensures acts { acts_within (ranges_over words.now state.now) (act_forms result.now.1) ≡ true }
{
    let _ = words;
    let _ = state;
    bodies.get(k)
}

// Whether a transaction with this guard is chosen.
fn is_met<H: HashUnits>(guard: &Option<Part>, words: &[u32], state: &State, hash: &H) -> bool
    requires { guard_within (ranges_over words.now state.now) (guard_form guard.now) ≡ true }
    ensures { result ≡ is_guard_true (H.meaning hash.now) (entering words.now state.now) (guard_form guard.now) }
{
    match guard {
        Some(test) => eval(test, words, state, hash) != 0,
        None => true,
    }
}

// Tests all guards. The answers come to the front of `answers`.
fn test_all<H: HashUnits>(
    bodies: &BodyList,
    words: &[u32],
    state: &State,
    hash: &H,
    answers: &mut [bool],
)
    requires within { bodies_within (ranges_over words.now state.now) (bodies_form bodies.now) ≡ true }
    requires room { length bodies.now ≤ length answers.old }
    ensures { take (length bodies.now) answers.new ≡ map (is_chosen (H.meaning hash.now) (entering words.now state.now)) (bodies_form bodies.now) }
{
    for k in 0..bodies.len() {
        let (guard, _) = body_at(bodies, k, words, state);
        answers[k] = is_met(guard, words, state, hash);
    }
}

// Runs the transactions for which the answers are yes, in order.
fn run_picked<H: HashUnits>(
    bodies: &BodyList,
    answers: &[bool],
    words: &mut [u32],
    state: &mut State,
    hash: &H,
)
    requires within { bodies_within (ranges_over words.old state.old) (bodies_form bodies.now) ≡ true }
    requires room { length bodies.now ≤ length answers.now }
    ensures env { entering words.new state.new ≡ all_run (H.meaning hash.now) (picked (bodies_form bodies.now) answers.now) (entering words.old state.old) }
    ensures sizes { map length state.new ≡ map length state.old }
{
    for k in 0..bodies.len() {
        let (_, acts) = body_at(bodies, k, words, state);
        let chosen = answers[k];
        if chosen {
            run_all(acts, words, state, hash);
        }
    }
}

// Tests all guards, and then runs the transactions whose guards hold. The answers come to the front of `answers`.
fn run_once<H: HashUnits>(
    bodies: &BodyList,
    answers: &mut [bool],
    words: &mut [u32],
    state: &mut State,
    hash: &H,
)
    requires within { bodies_within (ranges_over words.old state.old) (bodies_form bodies.now) ≡ true }
    requires room { length bodies.now ≤ length answers.old }
    ensures env { entering words.new state.new ≡ all_chosen (H.meaning hash.now) (bodies_form bodies.now) (entering words.old state.old) }
    ensures sizes { map length state.new ≡ map length state.old }
{
    test_all(bodies, words, state, hash, answers);
    run_picked(bodies, answers, words, state, hash);
}

/// A program that runs on one packet after another, with its state. It is the meaning that all other forms of the program
/// keep: no stage, and no other packet, is between a packet and the state that the one before it left.
#[derive(Drop)]
pub struct SerialRun {
    program: Checked,
    arrays: State,
    chosen: Vec<bool>,
    ghost sizes: { IsStateOf program.arrays arrays },
    ghost room: { length program.bodies ≤ length chosen.items },
}

impl SerialRun {
    /// A run that starts with the initial words. Takes all of its memory now.
    pub fn new(alloc: Global, program: Checked) -> Result<SerialRun, Memory>
        ensures program { IfOk result (λ run. run.program ≡ program) }
        ensures arrays { IfOk result (λ run. run.arrays ≡ started program.arrays) }
    {
        let arrays = State::new(alloc, &program.arrays)?;
        let chosen = vec![in alloc; false; program.bodies.len()].map_err(|_| Memory)?;
        Ok(SerialRun {
            program,
            arrays,
            chosen,
        })
    }

    /// Runs the transactions once: tests all guards on the packet as it enters, and then runs those whose guards hold, in
    /// the order of the text. The packet has as many words as there are fields. Takes no memory.
    pub fn step<H: HashUnits>(&mut self, hash: &H, packet: &mut Packet)
        requires { length packet.old ≡ length self.old.program.fields }
        ensures packet { packet.new ≡ (one_packet (H.meaning hash.now) (bodies_form self.old.program.bodies) packet.old self.old.arrays).packet }
        ensures arrays { self.new.arrays ≡ (one_packet (H.meaning hash.now) (bodies_form self.old.program.bodies) packet.old self.old.arrays).arrays }
        ensures program { self.new.program ≡ self.old.program }
        ensures words { length packet.new ≡ length packet.old }
    {
        let program = &self.program;
        run_once(
            &program.bodies,
            &mut self.chosen,
            packet.words_mut(),
            &mut self.arrays,
            hash,
        );
    }

    /// The word of an array at an index. Both count from 0 and are in range.
    pub fn word(&self, array: usize, index: u32) -> u32
        requires { IsPlaceOf self.now.program.arrays array index }
        ensures { result ≡ slice_index (array_of self.now.arrays array) index }
    {
        self.arrays.word(array, index)
    }

    /// The program.
    pub fn program(&self) -> &Checked
        ensures { result.now ≡ self.now.program }
    {
        &self.program
    }
}
