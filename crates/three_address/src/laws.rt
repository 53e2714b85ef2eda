//! What holds of every expression.

ghost use Rattle.std.specs.Prelude.{◌≡◌, ◌+◌, ◌++◌, ℕ, List, length};
ghost use Rattle.dom_ast.specs.Resolved.{PartForm, PartForms};
ghost use Rattle.dom_flat.specs.declared.line.Operand.{Operand};
ghost use Rattle.dom_flat.specs.declared.line.Line.{Line};
ghost use Rattle.three_address.specs.Becomes.{AllBecome, Becomes, Fused, FusedList, all_fused, fused};
ghost use Rattle.three_address.specs.Flattening.{all_flattened, flattened};

/// From value `fields + length before` on, an expression is the statements that flattening puts behind those before it, and
/// the operand that it answers; no other statements and operand are.
pub fn expressions_are_their_statements()
    ensures there { (fields modulus : ℕ) (values : List Operand) (before : List Line) (p : PartForm) → (new : List Line) × ((flattened fields values before modulus p).lines ≡ before ++ new) × Becomes values (fields + length before) (fused modulus p) new (flattened fields values before modulus p).operand }
    ensures one { (values : List Operand) (n : ℕ) (e : Fused) (lines others : List Line) (o q : Operand) → Becomes values n e lines o → Becomes values n e others q → (lines ≡ others) × (o ≡ q) }
{}

/// Arguments and outputs, in the same way: expressions one after another.
pub fn lists_are_their_statements()
    ensures there { (fields : ℕ) (values : List Operand) (before : List Line) (ps : PartForms) → (new : List Line) × ((all_flattened fields values before ps).lines ≡ before ++ new) × AllBecome values (fields + length before) (all_fused ps) new (all_flattened fields values before ps).operands }
    ensures one { (values : List Operand) (n : ℕ) (es : FusedList) (lines others : List Line) (os qs : List Operand) → AllBecome values n es lines os → AllBecome values n es others qs → (lines ≡ others) × (os ≡ qs) }
{}
