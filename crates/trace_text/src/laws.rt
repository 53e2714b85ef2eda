//! What holds of every text.

ghost use Rattle.std.specs.Prelude.{◌≡◌, ◌≤◌, ℕ, List, Result};
ghost use Rattle.trace_text.specs.declared.events.Event.{Event};
ghost use Rattle.trace_text.specs.Events.{IsEventsOf};
ghost use Rattle.trace_text.specs.Trace.{IsTraceOf, Refusal};

/// A text is one thing as a trace: one list of packets, or one first refusal.
pub fn one_trace()
    ensures { (text : List ℕ) (fields : List (List ℕ)) (depth : ℕ) (r s : Result (List (ℕ × List ℕ)) Refusal) → IsTraceOf text fields depth r → IsTraceOf text fields depth s → r ≡ s }
{}

/// And as a text of events, for a pipeline of at most 65,535 stages: one list of events, or one first bad line.
pub fn one_list_of_events()
    ensures { (text : List ℕ) (depth : ℕ) → depth ≤ 65535 → (r s : Result (List Event) ℕ) → IsEventsOf text depth r → IsEventsOf text depth s → r ≡ s }
{}
