//! Laws of plans and chains.
ghost use Rattle.std.specs.Prelude.{◌≡◌, ◌≤◌, ℕ, [], List, length};
ghost use Rattle.codelets.specs.declared.codelet.Codelet.{Codelet};
ghost use Rattle.codelets.specs.Leveled.{AreLeveled};
ghost use Rattle.stage_plan.specs.Chains.{Chain, IsChain, IsFirstChain, chain_length, greatest_level};
ghost use Rattle.stage_plan.specs.declared.place.Place.{Place};
ghost use Rattle.stage_plan.specs.Schedule.{IsPlan, all_placed, schedule};

/// A longest chain has as many codelets as the greatest level: no chain has more (`none_longer`), and where there are
/// codelets, one has as many (`one_as_long`). At most one list of numbers is the first (`one_first`).
pub fn longest_chain()
    ensures none_longer { (cs : List Codelet) → AreLeveled cs → (w : Chain) → IsChain cs w → chain_length w ≤ greatest_level cs }
    ensures one_as_long { (cs : List Codelet) → AreLeveled cs → 1 ≤ length cs → (w : Chain) × (IsChain cs w × (chain_length w ≡ greatest_level cs)) }
    ensures one_first { (cs : List Codelet) (shown : List ℕ) (other : List ℕ) → IsFirstChain cs shown → IsFirstChain cs other → shown ≡ other }
{}

/// Where the list schedule places all codelets, what it gives is a plan: each codelet stands after those that it uses, and
/// no stage holds more than its widths.
pub fn schedule_is_plan()
    ensures { (depth : ℕ) (sl : ℕ) (sf : ℕ) (cs : List Codelet) (placed : List Place) → AreLeveled cs → schedule depth sl sf [] cs ≡ all_placed placed → IsPlan depth sl sf cs placed }
{}
