ghost use Rattle.std.specs.Prelude.{◌≡◌, ◌∷◌, ◌++◌, [], IfOk};
ghost use Rattle.std.specs.Option.{option_map};
ghost use Rattle.atom_traits.specs.Form.{form};
ghost use Rattle.banzai_config.specs.Parts.{atom_form, stage_form};
ghost use Rattle.config_text.specs.Drafts.{at_start, both_slots, no_stage, one_slot, step, when};
ghost use Rattle.config_text.specs.Lines.{array, atom, containers, field, head, op, out, slot, stage, target, the_end};
ghost use Rattle.config_text.specs.Reader.{ended_named};
ghost use Rattle.config_text.specs.DraftViews.{draft_form, named_form};
ghost use Rattle.config_text.specs.Views.{line_form};

use atom_traits::{Leaf, Port, Ports, Tree, Trees};
use banzai_config::{NameList, OpAtom, PartSlot, Parts, StageList, StageParts, TreeAtom, Version};
use dom_words::{Array, ArrayList, Memory, Name, Seq};
use std::alloc::Global;
use std::mem;

/// A line by its meaning.
#[derive(Drop)]
pub(crate) enum Line {
    Head(Version),
    Target(Name),
    Field(Name),
    Array(Array),
    Containers(u32),
    Stage(u32),
    Op(OpAtom),
    Atom(u32),
    Slot(PartSlot, Tree),
    Out(Port),
    End,
}

/// Behind which lines a text stands.
#[derive(Clone, Copy)]
pub(crate) enum Place {
    /// Behind none.
    Start,
    /// Behind the version.
    Headed,
    /// Behind the target, or behind fields.
    Fields,
    /// Behind arrays.
    Arrays,
    /// Behind the number of containers.
    Counted,
    /// In a stage, where no slot is to come.
    Stage,
    /// Where the one slot of an atom is to come.
    OneSlot,
    /// Where two slots of an atom are to come.
    TwoSlots,
    /// Behind the first slot of two.
    SecondSlot,
    /// Behind outputs.
    Outputs,
    /// Behind the end.
    Finished,
}

/// What lines have said so far. What none has said yet has no meaning: `place` tells which that is.
#[derive(Drop)]
pub(crate) struct Draft {
    pub(crate) place: Place,
    pub(crate) version: Version,
    pub(crate) target: Name,
    pub(crate) fields: NameList,
    pub(crate) arrays: ArrayList,
    pub(crate) containers: u32,
    /// The stages before the one that is read.
    pub(crate) stages: StageList,
    /// The stage that is read.
    pub(crate) stage: StageParts,
    /// The first slot of two, with its tree.
    pub(crate) slot: PartSlot,
    pub(crate) tree: Tree,
    pub(crate) outputs: Ports,
}

fn empty_stage(alloc: Global) -> StageParts
    ensures { stage_form result ≡ no_stage }
{
    StageParts {
        stateless: Seq::new(alloc),
        stateful: Seq::new(alloc),
    }
}

fn list_of<T: Drop>(alloc: Global, item: T) -> Result<Seq<T>, Memory>
    ensures { IfOk result (λ list. list ≡ item ∷ []) }
{
    let mut list = Seq::new(alloc);
    list.push(item)?;
    Ok(list)
}

fn atom_of_one(alloc: Global, slot: PartSlot, tree: Tree) -> Result<TreeAtom, Memory>
    ensures { IfOk result (λ a. atom_form a ≡ one_slot slot (form tree)) }
{
    let slots = list_of(alloc, slot)?;
    let trees = Trees {
        first: tree,
        second: None,
    };
    Ok(TreeAtom { slots, trees })
}

fn atom_of_two(
    alloc: Global,
    slot: PartSlot,
    tree: Tree,
    next: PartSlot,
    second: Tree,
) -> Result<TreeAtom, Memory>
    ensures { IfOk result (λ a. atom_form a ≡ both_slots slot (form tree) next (form second)) }
{
    let mut slots = list_of(alloc, slot)?;
    slots.push(next)?;
    let trees = Trees {
        first: tree,
        second: Some(second),
    };
    Ok(TreeAtom { slots, trees })
}

impl Draft {
    /// What no line says.
    pub(crate) fn new(alloc: Global) -> Result<Draft, Memory>
        ensures { IfOk result (λ d. draft_form d ≡ at_start) }
    {
        let no_port = Port::Const(0);
        Ok(Draft {
            place: Place::Start,
            version: Version::One,
            target: Name::of(alloc, b"".as_slice())?,
            fields: Seq::new(alloc),
            arrays: Seq::new(alloc),
            containers: 0,
            stages: Seq::new(alloc),
            stage: empty_stage(alloc),
            slot: PartSlot {
                array: 0,
                index: no_port,
                old: None,
                new: None,
            },
            tree: Tree::Leaf(Leaf::Keep),
            outputs: Seq::new(alloc),
        })
    }

    fn add_head(&mut self, version: Version) -> bool
        ensures { step (draft_form self.old) (head version) ≡ when result (draft_form self.new) }
    {
        match self.place {
            Place::Start => {
                self.version = version;
                self.place = Place::Headed;
                true
            }
            _ => false,
        }
    }

    fn add_target(&mut self, alloc: Global, name: Name) -> bool
        ensures { step (draft_form self.old) (target name) ≡ when result (draft_form self.new) }
    {
        match self.place {
            Place::Headed => {
                self.target = name;
                self.fields = Seq::new(alloc);
                self.place = Place::Fields;
                true
            }
            _ => false,
        }
    }

    fn add_field(&mut self, name: Name) -> Result<bool, Memory>
        ensures { IfOk result (λ stands. step (draft_form self.old) (field name) ≡ when stands (draft_form self.new)) }
    {
        match self.place {
            Place::Fields => {
                self.fields.push(name)?;
                Ok(true)
            }
            _ => Ok(false),
        }
    }

    fn add_array(&mut self, alloc: Global, item: Array) -> Result<bool, Memory>
        ensures { IfOk result (λ stands. step (draft_form self.old) (array item) ≡ when stands (draft_form self.new)) }
    {
        match self.place {
            Place::Fields => {
                if self.fields.len() > 0 {
                    self.arrays = list_of(alloc, item)?;
                    self.place = Place::Arrays;
                    Ok(true)
                } else {
                    Ok(false)
                }
            }
            Place::Arrays => {
                self.arrays.push(item)?;
                Ok(true)
            }
            _ => Ok(false),
        }
    }

    fn add_containers(&mut self, alloc: Global, number: u32) -> bool
        ensures { step (draft_form self.old) (containers number) ≡ when result (draft_form self.new) }
    {
        match self.place {
            Place::Fields => {
                if self.fields.len() > 0 {
                    self.arrays = Seq::new(alloc);
                    self.containers = number;
                    self.place = Place::Counted;
                    true
                } else {
                    false
                }
            }
            Place::Arrays => {
                self.containers = number;
                self.place = Place::Counted;
                true
            }
            _ => false,
        }
    }

    fn add_stage(&mut self, alloc: Global, number: u32) -> Result<bool, Memory>
        ensures { IfOk result (λ stands. step (draft_form self.old) (stage number) ≡ when stands (draft_form self.new)) }
    {
        match self.place {
            Place::Counted => {
                if number == 1 {
                    self.stages = Seq::new(alloc);
                    self.stage = empty_stage(alloc);
                    self.place = Place::Stage;
                    Ok(true)
                } else {
                    Ok(false)
                }
            }
            Place::Stage => {
                if u128::from(number) == self.stages.len() as u128 + 2 {
                    let done = mem::replace(&mut self.stage, empty_stage(alloc));
                    self.stages.push(done)?;
                    Ok(true)
                } else {
                    Ok(false)
                }
            }
            _ => Ok(false),
        }
    }

    fn add_op(&mut self, item: OpAtom) -> Result<bool, Memory>
        ensures { IfOk result (λ stands. step (draft_form self.old) (op item) ≡ when stands (draft_form self.new)) }
    {
        match self.place {
            Place::Stage => {
                if self.stage.stateful.len() == 0 {
                    self.stage.stateless.push(item)?;
                    Ok(true)
                } else {
                    Ok(false)
                }
            }
            _ => Ok(false),
        }
    }

    fn add_atom(&mut self, slots: u32) -> bool
        ensures { step (draft_form self.old) (atom slots) ≡ when result (draft_form self.new) }
    {
        match self.place {
            Place::Stage => {
                if slots == 1 {
                    self.place = Place::OneSlot;
                    true
                } else if slots == 2 {
                    self.place = Place::TwoSlots;
                    true
                } else {
                    false
                }
            }
            _ => false,
        }
    }

    fn add_slot(&mut self, alloc: Global, next: PartSlot, tree: Tree) -> Result<bool, Memory>
        ensures { IfOk result (λ stands. step (draft_form self.old) (slot next (form tree)) ≡ when stands (draft_form self.new)) }
    {
        match self.place {
            Place::OneSlot => {
                self.stage.stateful.push(atom_of_one(alloc, next, tree)?)?;
                self.place = Place::Stage;
                Ok(true)
            }
            Place::TwoSlots => {
                self.slot = next;
                self.tree = tree;
                self.place = Place::SecondSlot;
                Ok(true)
            }
            Place::SecondSlot => {
                let first = mem::replace(&mut self.tree, Tree::Leaf(Leaf::Keep));
                self.stage
                    .stateful
                    .push(atom_of_two(alloc, self.slot, first, next, tree)?)?;
                self.place = Place::Stage;
                Ok(true)
            }
            _ => Ok(false),
        }
    }

    fn add_output(&mut self, alloc: Global, port: Port) -> Result<bool, Memory>
        ensures { IfOk result (λ stands. step (draft_form self.old) (out port) ≡ when stands (draft_form self.new)) }
    {
        match self.place {
            Place::Stage => {
                let done = mem::replace(&mut self.stage, empty_stage(alloc));
                self.stages.push(done)?;
                self.outputs = list_of(alloc, port)?;
                self.place = Place::Outputs;
                Ok(true)
            }
            Place::Outputs => {
                if self.outputs.len() < self.fields.len() {
                    self.outputs.push(port)?;
                    Ok(true)
                } else {
                    Ok(false)
                }
            }
            _ => Ok(false),
        }
    }

    fn add_end(&mut self) -> bool
        ensures { step (draft_form self.old) the_end ≡ when result (draft_form self.new) }
    {
        match self.place {
            Place::Outputs => {
                if self.outputs.len() == self.fields.len() {
                    self.place = Place::Finished;
                    true
                } else {
                    false
                }
            }
            _ => false,
        }
    }

    /// Takes one more line, and answers whether it may stand here.
    pub(crate) fn add(&mut self, alloc: Global, line: Line) -> Result<bool, Memory>
        ensures { IfOk result (λ stands. step (draft_form self.old) (line_form line) ≡ when stands (draft_form self.new)) }
    {
        match line {
            Line::Head(version) => Ok(self.add_head(version)),
            Line::Target(name) => Ok(self.add_target(alloc, name)),
            Line::Field(name) => self.add_field(name),
            Line::Array(item) => self.add_array(alloc, item),
            Line::Containers(number) => Ok(self.add_containers(alloc, number)),
            Line::Stage(number) => self.add_stage(alloc, number),
            Line::Op(item) => self.add_op(item),
            Line::Atom(slots) => Ok(self.add_atom(slots)),
            Line::Slot(slot, tree) => self.add_slot(alloc, slot, tree),
            Line::Out(port) => self.add_output(alloc, port),
            Line::End => Ok(self.add_end()),
        }
    }

    /// The configuration and the name of its target, behind the last line.
    pub(crate) fn into_named(self) -> Option<(Name, Parts)>
        ensures { option_map named_form result ≡ ended_named (draft_form self) }
    {
        let Draft {
            place,
            version,
            target,
            fields,
            arrays,
            containers,
            stages,
            outputs,
            ..
        } = self;
        match place {
            Place::Finished => Some((
                target,
                Parts {
                    version,
                    fields,
                    arrays,
                    containers,
                    stages,
                    outputs,
                },
            )),
            _ => None,
        }
    }
}
