ghost use Rattle.std.specs.Prelude.{◌≡◌, ℕ, ◌∷◌, true, false, codes, pos, Some, None, []};
ghost use Rattle.jac_value.specs.declared.value.Value.TheVariants as value;
ghost use Rattle.jac_world.specs.World.{shown_by};
ghost use Rattle.jac_rows.specs.Project.{project_at, rows_at};
ghost use Rattle.jac_rows.specs.Tables.{rows_of};
ghost use Rattle.jac_plain.specs.Policies.{has_id, has_record, has_group, labelled_group, is_allowed, with_label};
ghost use Rattle.jac_semantics_examples.specs.Library.{row};
ghost use Rattle.jac_semantics_examples.specs.Diary.{diary_app, diary_with, dentist, event_row, title_group, place_group, entry_group, entry_state};

/// A label is eight times its record's id, plus the place of its group among the groups of the
/// model.
pub fn names_groups()
    ensures first { labelled_group diary_app 65552 ≡ Some title_group }
    ensures second { labelled_group diary_app 65553 ≡ Some place_group }
    ensures third { labelled_group diary_app 65554 ≡ None }
    ensures other_model { labelled_group diary_app 66072 ≡ Some entry_group }
    ensures without_groups { labelled_group diary_app 32768 ≡ None }
    ensures has_first { has_group diary_app 65552 ≡ true }
    ensures has_second { has_group diary_app 65553 ≡ true }
    ensures lacks_third { has_group diary_app 65554 ≡ false }
    ensures lacks_any { has_group diary_app 32768 ≡ false }
{}

/// Which records exist, and which records labels belong to.
pub fn has_records()
    ensures first { has_id (diary_with dentist) 4096 ≡ true }
    ensures second { has_id (diary_with dentist) 4160 ≡ true }
    ensures absent { has_id (diary_with dentist) 4224 ≡ false }
    ensures event { has_id (diary_with dentist) 8194 ≡ true }
    ensures of_first_label { has_record (diary_with dentist) 65552 ≡ true }
    ensures of_last_label { has_record (diary_with dentist) 65559 ≡ true }
    ensures of_next_record { has_record (diary_with dentist) 65560 ≡ false }
    ensures of_record_before { has_record (diary_with dentist) 65551 ≡ false }
{}

/// A label is allowed if its record and its group exist, and the group's policy is true for the
/// record. An event's title is for its host, and for everybody if the event is open. Its place is
/// for every viewer who is logged in. A viewer who isn't logged in is none.
pub fn asks_policies()
    ensures host { is_allowed diary_app (diary_with dentist) (Some 4096) 65552 ≡ true }
    ensures guest { is_allowed diary_app (diary_with dentist) (Some 4160) 65552 ≡ false }
    ensures nobody { is_allowed diary_app (diary_with dentist) None 65552 ≡ false }
    ensures open_to_guest { is_allowed diary_app
        (diary_with (event_row (codes "fair") (Some 4096) true (codes "park")))
        (Some 4160) 65552 ≡ true }
    ensures open_to_nobody { is_allowed diary_app
        (diary_with (event_row (codes "fair") (Some 4096) true (codes "park"))) None 65552 ≡ true }
    ensures no_host { is_allowed diary_app
        (diary_with (event_row (codes "fair") None false (codes "park"))) None 65552 ≡ true }
    ensures place_for_guest { is_allowed diary_app (diary_with dentist) (Some 4160) 65553 ≡ true }
    ensures place_for_nobody { is_allowed diary_app (diary_with dentist) None 65553 ≡ false }
    ensures place_for_someone_gone { is_allowed diary_app (diary_with dentist) (Some 4224) 65553
        ≡ false }
    ensures no_group { is_allowed diary_app (diary_with dentist) (Some 4096) 65554 ≡ false }
    ensures no_record { is_allowed diary_app (diary_with dentist) None 66064 ≡ false }
    ensures owner { is_allowed diary_app (entry_state (Some 4096)) (Some 4096) 66072 ≡ true }
    ensures other { is_allowed diary_app (entry_state (Some 4096)) (Some 4160) 66072 ≡ false }
    ensures no_owner { is_allowed diary_app (entry_state None) None 66072 ≡ false }
{}

/// An assignment with one more label shows this label, and all that it showed before.
pub fn adds_labels()
    ensures added { with_label 7 (shown_by (3 ∷ [])) 7 ≡ true }
    ensures old { with_label 7 (shown_by (3 ∷ [])) 3 ≡ true }
    ensures other { with_label 7 (shown_by (3 ∷ [])) 8 ≡ false }
{}

/// An assignment shows the rows with true guards, in their order. A label in a guard is shown or
/// hidden, as its sign says. Every assignment shows the state's number. A model beyond the tables
/// has no records.
pub fn projects()
    ensures labelled { rows_at (shown_by (5 ∷ []))
        (record { id = 4096; guard = (5, true) ∷ []; cells = value.Int (pos 1) ∷ [] }
        ∷ record { id = 4096; guard = (5, false) ∷ []; cells = value.Int (pos 2) ∷ [] }
        ∷ record { id = 4160; guard = []; cells = value.Int (pos 3) ∷ [] } ∷ [])
        ≡ row 4096 (value.Int (pos 1) ∷ []) ∷ row 4160 (value.Int (pos 3) ∷ []) ∷ [] }
    ensures unlabelled { rows_at (shown_by [])
        (record { id = 4096; guard = (5, true) ∷ []; cells = value.Int (pos 1) ∷ [] }
        ∷ record { id = 4096; guard = (5, false) ∷ []; cells = value.Int (pos 2) ∷ [] }
        ∷ record { id = 4160; guard = []; cells = value.Int (pos 3) ∷ [] } ∷ [])
        ≡ row 4096 (value.Int (pos 2) ∷ []) ∷ row 4160 (value.Int (pos 3) ∷ []) ∷ [] }
    ensures all_labels { rows_at (shown_by (5 ∷ []))
        (record { id = 4096; guard = (5, true) ∷ (6, true) ∷ []; cells = [] } ∷ []) ≡ [] }
    ensures tables { project_at (shown_by (5 ∷ [])) (record {
      tables = [] ∷ (record { id = 4097; guard = (5, true) ∷ []; cells = [] } ∷ []) ∷ [];
      number = 9;
    }) ≡ record { tables = [] ∷ (row 4097 [] ∷ []) ∷ []; number = 9 } }
    ensures of_model { rows_of {X = ℕ} ((1 ∷ []) ∷ (2 ∷ []) ∷ []) 1 ≡ 2 ∷ [] }
    ensures beyond { rows_of {X = ℕ} ((1 ∷ []) ∷ (2 ∷ []) ∷ []) 2 ≡ [] }
{}
