use crate::build::fit_stages;
use crate::check::legal_fields;
use crate::copy::{copy_arrays, copy_names, copy_ports};
use crate::fault::ConfigFault;
use crate::judge::Limits;
use crate::parts::{FitAtoms, OpAtoms, Parts, Version};
use crate::places::first_holder;
use crate::show::show_stages;
use atom_traits::{AtomTemplate, Ports};
use dom_words::{ArrayList, Memory, Names, Seq};
use std::alloc::Global;
use std::marker::Model;

/// The fitted atoms of one stage.
#[derive(Drop)]
pub(crate) struct FitStage<T: AtomTemplate> {
    pub(crate) stateless: OpAtoms,
    pub(crate) stateful: FitAtoms<T>,
}

/// A configuration whose atoms are fitted to a template, seen as its parts.
#[derive(Drop)]
pub struct Config<T: AtomTemplate> {
    pub(crate) version: Version,
    pub(crate) fields: Names,
    pub(crate) arrays: ArrayList,
    pub(crate) containers: u32,
    pub(crate) stages: Seq<FitStage<T>>,
    pub(crate) outputs: Ports,
}

impl<T: AtomTemplate> Model for Config<T> {
    ghost use Rattle.std.specs.Prelude.{◌≤◌, length, map};
    ghost use Rattle.banzai_config.specs.Parts.{PartsForm};
    ghost use Rattle.banzai_config.specs.PartsCode.{parts_code};

    ghost Value = { PartsForm };

    ghost coded = { parts_code };

    ghost use Rattle.banzai_config.specs.Fitted.{fitted_form};

    ghost view = { λ c. record { version = c.version; fields = c.fields; arrays = c.arrays; containers = c.containers; stages = map (fitted_form T.trees_of) c.stages; outputs = c.outputs } };

    ghost invariant = { λ c. length c.stages ≤ 65535 };
}

ghost use Rattle.std.specs.Prelude.{◌≡◌, ◌≤◌, ◌-◌, IfOk, IfErr, OnOk, Some, length, map, slice_get};
ghost use Rattle.banzai_config.specs.Checked.{IsFaultOf, shape_with};
ghost use Rattle.banzai_config.specs.Legal.{LegalFor};
ghost use Rattle.banzai_config.specs.Parts.{StageForm, fit_form, parts_form};
ghost use Rattle.banzai_config.specs.Places.{place_of};

impl<T: AtomTemplate> Config<T> {
    /// The configuration with these parts, which are legal for a target with `DEPTH` stages of at most `SL` atoms without
    /// and `SF` atoms with state, and with multipliers where `MUL` holds; or the first rule that they break.
    pub fn checked<const DEPTH: usize, const SL: usize, const SF: usize, const MUL: bool>(
        alloc: Global,
        parts: Parts,
    ) -> Result<Config<T>, ConfigFault>
        requires some_depth { 1 ≤ DEPTH }
        requires depth { DEPTH ≤ 65535 }
        requires some_stateless { 1 ≤ SL }
        requires stateless { SL ≤ 65535 }
        requires some_stateful { 1 ≤ SF }
        requires stateful { SF ≤ 65535 }
        ensures legal { OnOk result (LegalFor (shape_with T.fits T.CONST_BITS DEPTH SL SF MUL) (parts_form parts)) }
        ensures parts { IfOk result (λ c. c ≡ parts_form parts) }
        ensures fault { IfErr result (λ f. IsFaultOf (shape_with T.fits T.CONST_BITS DEPTH SL SF MUL) (parts_form parts) f) }
    {
        let limits = Limits {
            depth: DEPTH,
            stateless: SL,
            stateful: SF,
            multiplies: MUL,
        };
        let fields = legal_fields::<T>(alloc, limits, &parts)?;
        let stages = fit_stages::<T>(alloc, parts.stages.as_slice())?;
        let Parts {
            version,
            fields: _,
            arrays,
            containers,
            stages: _,
            outputs,
        } = parts;
        Ok(Config {
            version,
            fields,
            arrays,
            containers,
            stages,
            outputs,
        })
    }

    /// Its parts.
    pub fn parts(&self, alloc: Global) -> Result<Parts, Memory>
        ensures { IfOk result (λ parts. parts_form parts ≡ self.now) }
    {
        let fields = copy_names(alloc, &self.fields)?;
        let arrays = copy_arrays(alloc, self.arrays.as_slice())?;
        let stages = show_stages::<T>(alloc, self.stages.as_slice())?;
        let outputs = copy_ports(alloc, self.outputs.as_slice())?;
        Ok(Parts {
            version: self.version,
            fields,
            arrays,
            containers: self.containers,
            stages,
            outputs,
        })
    }

    /// Its version.
    pub fn version(&self) -> Version
        ensures { result ≡ self.now.version }
    {
        self.version
    }

    /// The packet's fields.
    pub fn fields(&self) -> &Names
        ensures { result.now ≡ self.now.fields }
    {
        &self.fields
    }

    /// The state.
    pub fn arrays(&self) -> &ArrayList
        ensures { result.now ≡ self.now.arrays }
    {
        &self.arrays
    }

    /// The number of containers.
    pub fn containers(&self) -> u32
        ensures { result ≡ self.now.containers }
    {
        self.containers
    }

    /// What each field is when the packet leaves.
    pub fn outputs(&self) -> &Ports
        ensures { result.now ≡ self.now.outputs }
    {
        &self.outputs
    }

    /// The number of stages.
    pub fn stages(&self) -> usize
        ensures { result ≡ length self.now.stages }
    {
        self.stages.len()
    }

    /// The atoms without state of a stage, counted from 1.
    pub fn stateless(&self, stage: u32) -> &OpAtoms
        requires first { 1 ≤ stage }
        requires last { stage ≤ length self.now.stages }
        ensures { (s : StageForm) → slice_get self.now.stages (stage - 1) ≡ Some s → result.now ≡ s.stateless }
    {
        &self.stages.get(stage as usize - 1).stateless
    }

    /// The atoms with state of a stage, counted from 1.
    pub fn stateful(&self, stage: u32) -> &FitAtoms<T>
        requires first { 1 ≤ stage }
        requires last { stage ≤ length self.now.stages }
        ensures { (s : StageForm) → slice_get self.now.stages (stage - 1) ≡ Some s → map (fit_form T.trees_of) result.now ≡ s.stateful }
    {
        &self.stages.get(stage as usize - 1).stateful
    }

    /// The stage whose atoms hold an array, counted from 1; `None` where no atom holds it.
    pub fn place(&self, array: usize) -> Option<u32>
        ensures { result ≡ place_of self.now.stages array }
    {
        let stages = self.stages.as_slice();
        first_holder::<T>(stages, array)
    }
}
