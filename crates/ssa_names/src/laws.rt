//! What holds of naming for every list of flanks and steps.

ghost use Rattle.std.specs.Prelude.{◌≡◌, List, flat_map, map};
ghost use Rattle.dom_ast.specs.Flanks.{FlankForm};
ghost use Rattle.ssa_names.specs.Blanked.{blanked_item, left_of};
ghost use Rattle.ssa_names.specs.Naming.{named};

/// With names blanked, the items are the flanks and the steps that are no copies, in their order.
pub fn items_are_flanks_and_steps()
    ensures { (items : List FlankForm) → map blanked_item (named items).items ≡ flat_map left_of items }
{}
