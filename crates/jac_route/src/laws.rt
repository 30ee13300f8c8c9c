ghost use Rattle.std.specs.Prelude.{◌≡◌, ℕ, List, Err};
ghost use Rattle.jac_lang.specs.Syntax.{Application};
ghost use Rattle.jac_route.specs.declared.lookup.Found.TheVariants.{View as FoundView};
ghost use Rattle.jac_route.specs.declared.pairs.Pair.{Pair};
ghost use Rattle.jac_route.specs.Fitting.{IsRefusedAt, IsFitting};
ghost use Rattle.jac_route.specs.Found.{found, verb_of};
ghost use Rattle.jac_route.specs.Routes.{table_of};

/// A law: if an application has no routes, the view with the returned number has the method and the
/// pattern of an earlier view, or `matchit` can't parse its pattern, or its pattern conflicts with
/// that of an earlier view.
pub fn clashes_have_a_reason()
    ensures { (app : Application) (n : ℕ) → table_of app ≡ Err n → IsRefusedAt app.views n }
{}

/// A law: a view that is found has the method of the request (HEAD counts as GET). Its pattern fits
/// the path: a parameter reads one or more bytes without a slash, and every other byte itself.
pub fn found_views_fit()
    ensures { (app : Application) (method path : List ℕ) (n : ℕ) (pairs : List Pair) →
        found app method path ≡ FoundView n pairs →
        IsFitting app.views (verb_of method) path n pairs }
{}
