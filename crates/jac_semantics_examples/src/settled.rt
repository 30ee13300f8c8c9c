ghost use Rattle.std.specs.Prelude.{◌≡◌, ℕ, ◌∷◌, true, Some, None, []};
ghost use Rattle.jac_plain.specs.Policies.{IsLiveLabel, AreAllowed, ShowsForbidden, IsSettled};
ghost use Rattle.jac_world.specs.World.{shown_by};
ghost use Rattle.jac_semantics_examples.specs.Diary.{diary_app, guarded_diary};

/// A label is live if its model has its group, and its record exists in some world.
pub fn lists_live_labels()
    ensures title { IsLiveLabel diary_app guarded_diary 65552 }
    ensures place { IsLiveLabel diary_app guarded_diary 65553 }
    ensures no_group { IsLiveLabel diary_app guarded_diary 65554 → ⊥ }
    ensures no_record { IsLiveLabel diary_app guarded_diary 65560 → ⊥ }
    ensures user { IsLiveLabel diary_app guarded_diary 32768 → ⊥ }
    ensures others { (k : ℕ) → IsLiveLabel diary_app guarded_diary k
        → shown_by (65552 ∷ 65553 ∷ []) k ≡ true }
{}

/// Labels are allowed together, each in the world that all of them show.
pub fn allows_labels()
    ensures both { AreAllowed diary_app guarded_diary (Some 4096) (65552 ∷ 65553 ∷ []) }
    ensures none { AreAllowed diary_app guarded_diary None [] }
    ensures title_for_guest { AreAllowed diary_app guarded_diary (Some 4160) (65552 ∷ []) → ⊥ }
    ensures behind_another { AreAllowed diary_app guarded_diary (Some 4160)
        (65553 ∷ 65552 ∷ []) → ⊥ }
    ensures forbidden { ShowsForbidden diary_app guarded_diary (Some 4160)
        (shown_by (65552 ∷ [])) }
    ensures allowed { ShowsForbidden diary_app guarded_diary (Some 4096)
        (shown_by (65552 ∷ 65553 ∷ [])) → ⊥ }
{}

/// Which labels are settled for a viewer. The host is shown both labels of her event, a guest the
/// place's label, and nobody none. Labels aren't settled if they don't rise, if a label is missing
/// that can be added, or if a label isn't allowed or isn't live.
pub fn settles_labels()
    ensures host { IsSettled diary_app guarded_diary (Some 4096) (65552 ∷ 65553 ∷ []) }
    ensures guest { IsSettled diary_app guarded_diary (Some 4160) (65553 ∷ []) }
    ensures nobody { IsSettled diary_app guarded_diary None [] }
    ensures falling { IsSettled diary_app guarded_diary (Some 4096) (65553 ∷ 65552 ∷ []) → ⊥ }
    ensures lacking { IsSettled diary_app guarded_diary (Some 4096) (65552 ∷ []) → ⊥ }
    ensures lacking_all { IsSettled diary_app guarded_diary (Some 4160) [] → ⊥ }
    ensures forbidden { IsSettled diary_app guarded_diary (Some 4160) (65552 ∷ 65553 ∷ []) → ⊥ }
    ensures not_live { IsSettled diary_app guarded_diary (Some 4096)
        (65552 ∷ 65553 ∷ 65560 ∷ []) → ⊥ }
{}
