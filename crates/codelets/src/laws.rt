//! Laws of every statement list's codelets. A call does nothing.
ghost use Rattle.std.specs.Prelude.{◌≡◌, length};
ghost use Rattle.dom_flat.specs.Form.{flat_form};
ghost use Rattle.codelets.specs.Flat.{linked_of, reach_of};
ghost use Rattle.codelets.specs.Laws.{CodeletLaws};
ghost use Rattle.dep_graph.specs.Leads.{leads};
ghost use Rattle.dep_graph.specs.Walk.{IsReach};

use dom_flat::Flat;

/// One statement reaches another exactly where a walk of uses leads from it there.
pub fn reach_is_by_walks(flat: &Flat)
    ensures { IsReach (leads (length flat.now.fields) flat.now.lines) (length flat.now.lines) (reach_of (flat_form flat.now)) }
{}

/// What holds of the codelets of a statement list, from its twins to its containers.
pub fn codelets_hold(flat: &Flat)
    ensures { CodeletLaws (linked_of flat.now) }
{}
