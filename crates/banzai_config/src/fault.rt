use dom_words::Memory;

/// A rule of legal configurations (docs/MACHINE.md, "Legal configurations").
#[derive(Clone, Copy, Debug, PartialEq, Eq)]
pub enum ConfigKind {
    Depth,
    Width,
    BadNumber,
    MulOperator,
    WideConstant,
    Pattern,
    ArrayTwice,
    ReadBeforeWrite,
    ContainerTwice,
}

/// The first rule that is broken, with the stage and the position of the atom, both counted from 1; or want of memory.
/// Stage 0 stands for what is not of a stage, and the stage behind the last for the outputs, with a field's number from 1
/// as the atom.
#[derive(Clone, Copy, Debug, PartialEq, Eq)]
pub enum ConfigFault {
    Refused {
        kind: ConfigKind,
        stage: u32,
        atom: u32,
    },
    Memory,
}

impl From<Memory> for ConfigFault {
    ghost use Rattle.std.specs.Prelude.{◌≡◌};
    ghost use Rattle.banzai_config.specs.declared.fault.ConfigFault.TheVariants as fault;

    ghost from_gives = { λ _ f. f ≡ fault.Memory };

    fn from(_memory: Memory) -> Self {
        ConfigFault::Memory
    }
}
