ghost use Rattle.std.specs.Prelude.{◌≡◌, ℕ, Bool, List, true, IsTrue, ◌↔◌};
ghost use Rattle.jac_world.specs.World.{holds, names, contradict, guard_wants, IsRising, IsApart};

/// A law: whether a guard holds depends only on the labels that it names.
pub fn holds_by_names()
    ensures { (g : List (ℕ × Bool)) (v w : ℕ → Bool) → ((k : ℕ) → IsTrue (names g k) → v k ≡ w k)
        → holds v g ≡ holds w g }
{}

/// A law: two rising guards contradict each other exactly if they hold together under no
/// assignment.
pub fn contradict_where_apart()
    ensures { (g h : List (ℕ × Bool)) → IsRising g → IsRising h
        → (IsTrue (contradict g h) ↔ IsApart g h) }
{}

/// A law: a rising guard holds under the assignment that shows exactly its labels with sign true.
pub fn holds_somewhere()
    ensures { (g : List (ℕ × Bool)) → IsRising g → holds (guard_wants g) g ≡ true }
{}

/// A law: rising guards that hold under the same assignments are equal.
pub fn same_where_alike()
    ensures { (g h : List (ℕ × Bool)) → IsRising g → IsRising h
        → ((w : ℕ → Bool) → holds w g ≡ holds w h) → g ≡ h }
{}
