//! What holds of every legal configuration, and what the targets are.
ghost use Rattle.std.specs.Prelude.{◌≡◌, [], Some, false, length, true};
ghost use Rattle.std.specs.List.{flat_map, list_all};
ghost use Rattle.banzai_config.specs.Legal.{LegalFor, Shape, are_new, rules_of};
ghost use Rattle.banzai_config.specs.Named.{stage_arrays};
ghost use Rattle.banzai_config.specs.Parts.{PartsForm};
ghost use Rattle.banzai_config.specs.Stages.{AreNumbersLegal, AreOutputsLegal, AreStagesLegal};
ghost use Rattle.banzai_config.specs.Checked.{shape_with};
ghost use Rattle.banzai_config.specs.Targets.{name_of, shape_of, target, target_named, template_fits};
ghost use Rattle.banzai_config.specs.declared.target.Geometry.TheVariants.{Large, Medium, Small};
ghost use Rattle.banzai_config.specs.declared.target.Target.{Target};
ghost use Rattle.banzai_config.specs.declared.target.Template.{Template};
ghost use Rattle.banzai_config.specs.declared.target.Template.TheVariants as template;

use atom_traits::{AtomTemplate, IfElse, Nested, Pairs, Praw, Raw, Sub, Write};

/// Of a legal configuration every rule holds, and no array stands in two slots.
pub fn legal_parts_hold()
    ensures rules { (s : Shape) (p : PartsForm) → LegalFor s p → list_all (λ r. r.test.holds) (rules_of s p) ≡ true }
    ensures arrays { (s : Shape) (p : PartsForm) → LegalFor s p → are_new [] (flat_map stage_arrays p.stages) ≡ true }
{}

/// A legal configuration has 1 to 64 fields, at most 32 arrays of at most 2^20 words, at most 2,048 containers, of which
/// the first are the fields' (`numbers`); the target's stages (`depth`); and for each field an output, which shows a
/// field or what a stage writes (`outputs`).
pub fn legal_numbers_hold()
    ensures numbers { (s : Shape) (p : PartsForm) → LegalFor s p → AreNumbersLegal p }
    ensures depth { (s : Shape) (p : PartsForm) → LegalFor s p → length p.stages ≡ s.depth }
    ensures outputs { (s : Shape) (p : PartsForm) → LegalFor s p → AreOutputsLegal p }
{}

/// In a legal configuration of either version no atom of a stage writes a container that an atom of the stage reads, or
/// that another write of the stage names. Each stage reads fields and what earlier stages write, the containers and
/// arrays that it names are there, and its atoms fit.
pub fn legal_stages_hold()
    ensures { (s : Shape) (p : PartsForm) → LegalFor s p → AreStagesLegal s p }
{}

/// Each target is the one that its name names. So no two targets have the same name.
pub fn targets_have_own_names()
    ensures { (t : Target) → target_named (name_of t) ≡ Some t }
{}

/// What the targets of each geometry take: the bits of constants, the number of stages, the atoms without and with state
/// in a stage, and whether there are multipliers (docs/MACHINE.md, "Targets"). The trees are the template's.
pub fn shapes_of_targets()
    ensures small { (t : Template) → shape_of (target t Small) ≡ shape_with (template_fits t 5) 5 4 4 1 false }
    ensures medium { (t : Template) → shape_of (target t Medium) ≡ shape_with (template_fits t 16) 16 12 16 4 false }
    ensures large { (t : Template) → shape_of (target t Large) ≡ shape_with (template_fits t 32) 32 32 300 10 true }
{}

/// A target of a template takes the trees that this template takes with constants of K bits.
pub fn trees_of_targets<const K: u32>()
    ensures write { template_fits template.Write K ≡ ⟦<Write<K> as AtomTemplate>⟧.fits }
    ensures raw { template_fits template.Raw K ≡ ⟦<Raw<K> as AtomTemplate>⟧.fits }
    ensures praw { template_fits template.Praw K ≡ ⟦<Praw<K> as AtomTemplate>⟧.fits }
    ensures if_else { template_fits template.IfElse K ≡ ⟦<IfElse<K> as AtomTemplate>⟧.fits }
    ensures sub { template_fits template.Sub K ≡ ⟦<Sub<K> as AtomTemplate>⟧.fits }
    ensures nested { template_fits template.Nested K ≡ ⟦<Nested<K> as AtomTemplate>⟧.fits }
    ensures pairs { template_fits template.Pairs K ≡ ⟦<Pairs<K> as AtomTemplate>⟧.fits }
{}
