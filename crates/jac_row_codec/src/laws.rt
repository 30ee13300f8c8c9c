ghost use Rattle.std.specs.Prelude.{◌≡◌, ℕ, Bool, List};
ghost use Rattle.jac_value.specs.declared.value.Kind.{Kind};
ghost use Rattle.jac_value.specs.declared.value.Value.{Value};
ghost use Rattle.jac_rows.specs.declared.row.Row.{Row};
ghost use Rattle.jac_row_codec.specs.Spelling.{IsGuard, AreCells, guard_bytes, cells_bytes};
ghost use Rattle.jac_row_codec.specs.Faults.{IsRowOf};

/// A law: bytes spell at most one guard.
pub fn guards_are_spelled_once()
    ensures { (g h : List (ℕ × Bool)) → IsGuard g → IsGuard h → guard_bytes g ≡ guard_bytes h
        → g ≡ h }
{}

/// A law: bytes spell at most one list of cells of these kinds.
pub fn cells_are_spelled_once()
    ensures { (kinds : List Kind) (us vs : List Value) → AreCells kinds us → AreCells kinds vs
        → cells_bytes us ≡ cells_bytes vs → us ≡ vs }
{}

/// A law: bytes spell at most one row, and a row has one spelling. So decoding an encoded row gives
/// the same row.
pub fn rows_are_spelled_once()
    ensures row { (id : ℕ) (kinds : List Kind) (jvars body : List ℕ) (r s : Row)
        → IsRowOf id kinds jvars body r → IsRowOf id kinds jvars body s → r ≡ s }
    ensures spelling { (id : ℕ) (kinds : List Kind) (jvars body other_jvars other_body : List ℕ)
        (r : Row) → IsRowOf id kinds jvars body r → IsRowOf id kinds other_jvars other_body r
        → (jvars ≡ other_jvars) × (body ≡ other_body) }
{}
