ghost use Rattle.std.specs.Prelude.{◌≡◌, ◌&&◌, ◌↔◌, ℕ, true, List, Option};
ghost use Rattle.jac_lang.specs.Syntax.{Application};
ghost use Rattle.jac_rows.specs.declared.state.State.{State};
ghost use Rattle.jac_plain.specs.Policies.{has_group, IsLiveLabel, IsSettled};
ghost use Rattle.jac_plain.specs.Requests.{Worlds};
ghost use Rattle.jac_policy_cache.specs.declared.viewer_cache.ViewerCache.{ViewerCache as Kept};
ghost use Rattle.jac_policy_cache.specs.declared.invalidation.Invalidation.{Invalidation as Change};
ghost use Rattle.jac_policy_cache.specs.ViewerCache.{IsEmptyCache, Invalidates};
ghost use Rattle.jac_policy_cache.specs.Affected.{IsCovered};
ghost use Rattle.jac_resolve.specs.Collected.{has_row, AllCanHold};
ghost use Rattle.jac_resolve.specs.ValidCache.{IsValidCache};
ghost use Rattle.jac_plain.specs.Shown.{worlds_of};

/// A law: if no guard contradicts itself, the live labels are those of all groups of every record
/// that has a row.
pub fn live_by_rows()
    ensures { (app : Application) (s : State) (k : ℕ) → AllCanHold s
        → (IsLiveLabel app (worlds_of s) k ↔ ((has_group app k && has_row s k) ≡ true)) }
{}

/// A law: whether labels are settled depends only on the tables of a state, and not on its number.
pub fn settled_by_tables()
    ensures { (app : Application) (s t : State) (viewer : Option ℕ) (labels : List ℕ)
        → s.tables ≡ t.tables → IsSettled app (worlds_of s) viewer labels
        → IsSettled app (worlds_of t) viewer labels }
{}

/// A law: an empty cache is valid.
pub fn empty_cache_is_valid()
    ensures { (app : Application) (worlds : Worlds) (viewer : Option ℕ) (cache : Kept)
        → IsEmptyCache cache → IsValidCache app worlds viewer cache }
{}

/// A law: if a cache is valid in some worlds, and is invalidated by what a change to later worlds
/// affects, it is valid in the later worlds.
pub fn cache_moves()
    ensures { (app : Application) (worlds later : Worlds) (viewer : Option ℕ)
        (invalidation : Change)
        (old new : Kept) →
        IsValidCache app worlds viewer old → Invalidates invalidation viewer old new
        → IsCovered app worlds later invalidation viewer →
        IsValidCache app later viewer new }
{}

/// A law: every invalidation covers a change that changes nothing.
pub fn covered_by_nothing()
    ensures { (app : Application) (worlds : Worlds) (viewer : Option ℕ) (invalidation : Change)
        → IsCovered app worlds worlds invalidation viewer }
{}

/// A law: whether a cache is valid depends only on the tables of a state, and not on its number.
pub fn valid_by_tables()
    ensures { (app : Application) (s t : State) (viewer : Option ℕ) (cache : Kept)
        → s.tables ≡ t.tables → IsValidCache app (worlds_of s) viewer cache
        → IsValidCache app (worlds_of t) viewer cache }
{}
