ghost use Rattle.std.specs.Prelude.{◌≡◌, ℕ, Bool, true};
ghost use Rattle.jac_policy_cache.specs.declared.policy_memo.PolicyMemo.{PolicyMemo};
ghost use Rattle.jac_policy_cache.specs.Memo.{depends, recall};

/// A law: the cached result of a label depends only on the labels that the guards of its results
/// name.
pub fn recall_by_dependencies()
    ensures { (answers : PolicyMemo) (j : ℕ) (v w : ℕ → Bool) →
        ((k : ℕ) → depends answers j k ≡ true
        → v k ≡ w k) → recall answers j v ≡ recall answers j w }
{}
