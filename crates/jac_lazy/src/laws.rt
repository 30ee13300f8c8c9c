ghost use Rattle.std.specs.Prelude.{◌≡◌, ℕ, List, Option};
ghost use Rattle.jac_world.specs.World.{shown_by, IsAscending};
ghost use Rattle.jac_lang.specs.Syntax.{Application};
ghost use Rattle.jac_plain.specs.Policies.{IsSettled};
ghost use Rattle.jac_plain.specs.Requests.{Visit, Worlds};
ghost use Rattle.jac_plain.specs.declared.page.Page.{Page};
ghost use Rattle.jac_shown_rows.specs.Consulted.{Agrees};
ghost use Rattle.jac_policy_cache.specs.declared.policy_memo.PolicyMemo.{PolicyMemo};
ghost use Rattle.jac_resolve.specs.RightMemo.{IsPassed};
ghost use Rattle.jac_resolve.specs.Rounds.{AreLive};
ghost use Rattle.jac_lazy.specs.Steady.{IsPageOf, IsSteady};
ghost use Rattle.jac_lazy.specs.Filled.{IsFilled, IsPageOfSettled, fill};

/// A law: if labels are steady, the labels that they are filled up to are settled, and agree with
/// them about what was consulted.
pub fn filled_is_settled()
    ensures { (app : Application) (worlds : Worlds) (viewer : Option ℕ)
        (consulted labels filled : List ℕ) → IsSteady app worlds viewer consulted labels →
        IsFilled app worlds viewer consulted labels filled → IsSettled app worlds viewer filled ×
        Agrees consulted (shown_by labels) (shown_by filled) }
{}

/// A law: rounds that try the live labels, in rising or any other order, fill up any labels.
pub fn rounds_fill()
    ensures { (app : Application) (worlds : Worlds) (viewer : Option ℕ)
        (consulted live labels : List ℕ) → AreLive app worlds live →
        IsFilled app worlds viewer consulted labels (fill app worlds viewer consulted live labels) }
{}

/// A law: suppose that labels are steady, and that a page is the same whatever is shown besides
/// what was consulted. Then it is the page under a settled assignment that agrees with the labels
/// about what was consulted.
pub fn steady_pages()
    ensures { (app : Application) (worlds before : Worlds) (viewer : Option ℕ)
        (consulted live labels : List ℕ) (visit : Visit) (it : Page) →
        IsSteady app worlds viewer consulted labels → AreLive app worlds live →
        IsPageOf app before consulted labels visit it →
        IsPageOfSettled app worlds before viewer consulted labels visit it }
{}

/// A law: the result of a pass over all live labels is settled.
pub fn passed_is_settled()
    ensures { (app : Application) (worlds : Worlds) (viewer : Option ℕ) (answers : PolicyMemo)
        (live labels : List ℕ) → IsAscending labels → AreLive app worlds live →
        IsPassed app worlds viewer answers live labels → IsSettled app worlds viewer labels }
{}
