ghost use Rattle.std.specs.Prelude.{◌≡◌};
ghost use Rattle.std.specs.List.{find};
ghost use Rattle.dom_words.specs.Names.{is_same};
ghost use Rattle.banzai_config.specs.Targets.{depth_of, name_of, target_named};

/// A family of stateful atoms. What fits one of them fits each later one with the same number of constant bits.
#[derive(Clone, Copy, Debug, PartialEq, Eq)]
pub enum Template {
    Write,
    Raw,
    Praw,
    IfElse,
    Sub,
    Nested,
    Pairs,
}

/// The size of a pipeline: its stages, the atoms of each kind in a stage, the bits of constants, and whether it has
/// multipliers (docs/MACHINE.md, "Targets").
#[derive(Clone, Copy, Debug, PartialEq, Eq)]
pub enum Geometry {
    Small,
    Medium,
    Large,
}

/// A template on a geometry.
#[derive(Clone, Copy, Debug, PartialEq, Eq)]
pub struct Target {
    pub template: Template,
    pub geometry: Geometry,
}

const TARGETS: [Target; 21] = [
    Target {
        template: Template::Write,
        geometry: Geometry::Small,
    },
    Target {
        template: Template::Write,
        geometry: Geometry::Medium,
    },
    Target {
        template: Template::Write,
        geometry: Geometry::Large,
    },
    Target {
        template: Template::Raw,
        geometry: Geometry::Small,
    },
    Target {
        template: Template::Raw,
        geometry: Geometry::Medium,
    },
    Target {
        template: Template::Raw,
        geometry: Geometry::Large,
    },
    Target {
        template: Template::Praw,
        geometry: Geometry::Small,
    },
    Target {
        template: Template::Praw,
        geometry: Geometry::Medium,
    },
    Target {
        template: Template::Praw,
        geometry: Geometry::Large,
    },
    Target {
        template: Template::IfElse,
        geometry: Geometry::Small,
    },
    Target {
        template: Template::IfElse,
        geometry: Geometry::Medium,
    },
    Target {
        template: Template::IfElse,
        geometry: Geometry::Large,
    },
    Target {
        template: Template::Sub,
        geometry: Geometry::Small,
    },
    Target {
        template: Template::Sub,
        geometry: Geometry::Medium,
    },
    Target {
        template: Template::Sub,
        geometry: Geometry::Large,
    },
    Target {
        template: Template::Nested,
        geometry: Geometry::Small,
    },
    Target {
        template: Template::Nested,
        geometry: Geometry::Medium,
    },
    Target {
        template: Template::Nested,
        geometry: Geometry::Large,
    },
    Target {
        template: Template::Pairs,
        geometry: Geometry::Small,
    },
    Target {
        template: Template::Pairs,
        geometry: Geometry::Medium,
    },
    Target {
        template: Template::Pairs,
        geometry: Geometry::Large,
    },
];

impl Target {
    /// The target with this name: a template and a geometry, as `raw-small`; `None` where no target has it.
    pub fn named(text: &str) -> Option<Target>
        ensures { result ≡ target_named text.now }
    {
        first_named(&TARGETS, text)
    }

    /// Its name. No two targets have the same.
    pub fn name(&self) -> &'static str
        ensures { result.now ≡ name_of self.now }
    {
        match (self.template, self.geometry) {
            (Template::Write, Geometry::Small) => "write-small",
            (Template::Write, Geometry::Medium) => "write-medium",
            (Template::Write, Geometry::Large) => "write-large",
            (Template::Raw, Geometry::Small) => "raw-small",
            (Template::Raw, Geometry::Medium) => "raw-medium",
            (Template::Raw, Geometry::Large) => "raw-large",
            (Template::Praw, Geometry::Small) => "praw-small",
            (Template::Praw, Geometry::Medium) => "praw-medium",
            (Template::Praw, Geometry::Large) => "praw-large",
            (Template::IfElse, Geometry::Small) => "ifelse-small",
            (Template::IfElse, Geometry::Medium) => "ifelse-medium",
            (Template::IfElse, Geometry::Large) => "ifelse-large",
            (Template::Sub, Geometry::Small) => "sub-small",
            (Template::Sub, Geometry::Medium) => "sub-medium",
            (Template::Sub, Geometry::Large) => "sub-large",
            (Template::Nested, Geometry::Small) => "nested-small",
            (Template::Nested, Geometry::Medium) => "nested-medium",
            (Template::Nested, Geometry::Large) => "nested-large",
            (Template::Pairs, Geometry::Small) => "pairs-small",
            (Template::Pairs, Geometry::Medium) => "pairs-medium",
            (Template::Pairs, Geometry::Large) => "pairs-large",
        }
    }

    /// Its number of stages.
    pub fn depth(&self) -> u32
        ensures { result ≡ depth_of self.now.geometry }
    {
        match self.geometry {
            Geometry::Small => 4,
            Geometry::Medium => 12,
            Geometry::Large => 32,
        }
    }
}

// The first of the targets that has this name.
fn first_named(targets: &[Target], text: &str) -> Option<Target>
    ensures { result ≡ find (λ t. is_same (name_of t) text.now) targets.now }
{
    for target in targets {
        if target.name() == text {
            return Some(*target);
        }
    }
    None
}
