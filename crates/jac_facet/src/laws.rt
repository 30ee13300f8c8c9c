ghost use Rattle.std.specs.Prelude.{◌≡◌, ℕ, Bool};
ghost use Rattle.jac_facet.specs.Shape.{Shape, at, IsOrdered};

/// A law: if labels rise strictly on every path and the two sides of each split differ, facets that
/// have the same value under every assignment are equal.
pub fn same_where_alike<T>()
    ensures { (f g : Shape T) → IsOrdered f → IsOrdered g → ((w : ℕ → Bool) → at w f ≡ at w g)
        → f ≡ g }
{}
