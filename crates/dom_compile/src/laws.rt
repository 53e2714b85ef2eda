//! What holds of every text.

ghost use Rattle.std.specs.Prelude.{◌≡◌, ℕ, Bool, List, Ok, Result};
ghost use Rattle.codelets.specs.declared.answer.Codelets.{Codelets};
ghost use Rattle.codelets.specs.declared.codelet.Codelet.{Codelet};
ghost use Rattle.stage_plan.specs.declared.place.Place.{Place};
ghost use Rattle.stage_plan.specs.Schedule.{IsPlan};
ghost use Rattle.atom_traits.specs.Form.{TreesForm};
ghost use Rattle.atom_match.specs.Atoms.{AtomForm};
ghost use Rattle.banzai_config.specs.Legal.{LegalFor, Shape};
ghost use Rattle.banzai_config.specs.Parts.{PartsForm};
ghost use Rattle.compile_law.specs.Compiled.{AreAtomsOf, compiled_parts};
ghost use Rattle.container_plan.specs.Shared.{shared};
ghost use Rattle.dom_ast.specs.Resolved.{CheckedForm};
ghost use Rattle.dom_compile.specs.Answer.{CompileRefusal, IsCompileAnswer, IsFitted, IsFrontAnswer};
ghost use Rattle.dom_compile.specs.Programs.{IsWellFormed};
ghost use Rattle.dom_compile.specs.Runs.{ActsAs, RunsAs};
ghost use Rattle.dom_compile.specs.Verdict.{IsProgram, ProgramFault};
ghost use Rattle.dom_compile.specs.WellNamed.{IsWellNamed};

/// A text is one thing as a program: one well-formed program, or one first fault.
pub fn one_program()
    ensures { (text : List ℕ) (r s : Result CheckedForm ProgramFault) → IsProgram text r → IsProgram text s → r ≡ s }
{}

/// The fields of a well-formed program have names that differ, so have its arrays, and all these names together are no longer
/// than the text.
pub fn well_named()
    ensures { (text : List ℕ) (program : CheckedForm) → IsWellFormed text program → IsWellNamed text program }
{}

/// For one target a text is one thing: one configuration, or one first cause why it has none.
pub fn one_compile_answer()
    ensures { (s : Shape) (text : List ℕ) (a b : Result PartsForm CompileRefusal) → IsCompileAnswer s text a → IsCompileAnswer s text b → a ≡ b }
{}

/// A text is one thing before its codelets have stages: one list of codelets that fit, or one first cause why it has none
/// (`answer`). Of codelets with one text and their atoms the same parts are made at the same places (`parts`).
pub fn one_front_answer()
    ensures answer { (fits : TreesForm → Bool) (multiplies : Bool) (text : List ℕ) (a b : Result (List Codelet) CompileRefusal) → IsFrontAnswer fits multiplies text a → IsFrontAnswer fits multiplies text b → a ≡ b }
    ensures parts { (fits : TreesForm → Bool) (multiplies : Bool) (text : List ℕ) (a b : Codelets) (atoms others : List AtomForm) (depth : ℕ) (places : List Place) → IsFitted fits multiplies text a → IsFitted fits multiplies text b → AreAtomsOf a atoms → AreAtomsOf b others → compiled_parts a depth atoms places ≡ compiled_parts b depth others places }
{}

/// The codelets of a text at the stages of any plan do what the program does, with values that share containers: one packet
/// through all stages and the outputs is what the transactions make of it (`one`), so one packet after another is the serial
/// run (`serial`).
pub fn placed_is_the_program()
    ensures one { (s : Shape) (text : List ℕ) (program : CheckedForm) (codelets : Codelets) (atoms : List AtomForm) (places : List Place) → IsWellFormed text program → IsFitted s.fits s.multiplies text codelets → AreAtomsOf codelets atoms → IsPlan s.depth s.stateless s.stateful codelets.list places → LegalFor s (compiled_parts codelets s.depth atoms places) → ActsAs program (shared (compiled_parts codelets s.depth atoms places)) }
    ensures serial { (s : Shape) (text : List ℕ) (program : CheckedForm) (codelets : Codelets) (atoms : List AtomForm) (places : List Place) → IsWellFormed text program → IsFitted s.fits s.multiplies text codelets → AreAtomsOf codelets atoms → IsPlan s.depth s.stateless s.stateful codelets.list places → LegalFor s (compiled_parts codelets s.depth atoms places) → RunsAs program (shared (compiled_parts codelets s.depth atoms places)) }
{}

/// What a text compiles to does what its program does, for every target, every hash and every packet: one packet through all
/// stages and the outputs is what the transactions make of it (`one`), so one packet after another is the serial run
/// (`serial`).
pub fn compiled_is_the_program()
    ensures one { (s : Shape) (text : List ℕ) (program : CheckedForm) (parts : PartsForm) → IsWellFormed text program → IsCompileAnswer s text (Ok parts) → ActsAs program parts }
    ensures serial { (s : Shape) (text : List ℕ) (program : CheckedForm) (parts : PartsForm) → IsWellFormed text program → IsCompileAnswer s text (Ok parts) → RunsAs program parts }
{}
