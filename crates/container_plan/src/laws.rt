//! Laws of shared containers. A call does nothing.
ghost use Rattle.std.specs.Prelude.{◌≡◌, ℕ, ◌<◌, ◌≤◌, ◌≢◌, Bool, List, length};
ghost use Rattle.std.specs.List.{AllByRecursion};
ghost use Rattle.dom_words.specs.State.{Hash};
ghost use Rattle.banzai_config.specs.declared.parts.Version.TheVariants.{One};
ghost use Rattle.banzai_config.specs.Action.{Arrays, alone, alone_from, outcome_of};
ghost use Rattle.banzai_config.specs.Checked.{shape_with};
ghost use Rattle.banzai_config.specs.Legal.{LegalFor, Shape};
ghost use Rattle.banzai_config.specs.Parts.{PartsForm};
ghost use Rattle.container_plan.specs.Shared.{container_of, depth, last, live_counts, made, shared};
ghost use Rattle.container_plan.specs.Spans.{greatest};

use atom_traits::AtomTemplate;

/// Legal parts of version one stay legal for their target when their values share containers.
pub fn shared_is_legal<T: AtomTemplate>()
    ensures { (depth : ℕ) (stateless : ℕ) (stateful : ℕ) (multiplies : Bool) (p : PartsForm) → LegalFor (shape_with T.fits T.CONST_BITS depth stateless stateful multiplies) p → p.version ≡ One → LegalFor (shape_with T.fits T.CONST_BITS depth stateless stateful multiplies) (shared p) }
{}

/// There are exactly as many shared containers as values are live at one stage at most.
pub fn shared_is_least()
    ensures { (s : Shape) (p : PartsForm) → LegalFor s p → p.version ≡ One → (shared p).containers ≡ greatest (live_counts p) }
{}

/// Two values that are live at one stage have different containers (`apart`), and a field stays in its own (`fields`). A
/// number is a value's where it is made at a stage and not behind the last one.
pub fn live_values_are_apart()
    ensures apart { (s : Shape) (p : PartsForm) → LegalFor s p → p.version ≡ One → (k u v : ℕ) → u < p.containers → v < p.containers → made p u ≤ depth p → made p v ≤ depth p → u ≢ v → made p u ≤ k → k ≤ last p u → made p v ≤ k → k ≤ last p v → container_of p u ≢ container_of p v }
    ensures fields { (s : Shape) (p : PartsForm) → LegalFor s p → p.version ≡ One → (v : ℕ) → v < length p.fields → container_of p v ≡ v }
{}

/// With shared containers one packet leaves as it did and leaves the arrays as it did, for every hash and all arrays
/// (`outcome`); and so do packets one after another, from all arrays (`after`) and from the initial words (`alone`).
pub fn shared_does_the_same()
    ensures outcome { (s : Shape) (p : PartsForm) → LegalFor s p → p.version ≡ One → (hash : Hash) (arrays : Arrays) (packet : List ℕ) → length packet ≡ length p.fields → outcome_of hash (shared p) arrays packet ≡ outcome_of hash p arrays packet }
    ensures after { (s : Shape) (p : PartsForm) → LegalFor s p → p.version ≡ One → (hash : Hash) (arrays : Arrays) (packets : List (List ℕ)) → AllByRecursion (λ packet. length packet ≡ length p.fields) packets → alone_from hash (shared p) arrays packets ≡ alone_from hash p arrays packets }
    ensures alone { (s : Shape) (p : PartsForm) → LegalFor s p → p.version ≡ One → (hash : Hash) (packets : List (List ℕ)) → AllByRecursion (λ packet. length packet ≡ length p.fields) packets → alone hash (shared p) packets ≡ alone hash p packets }
{}
