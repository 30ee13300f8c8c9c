ghost use Rattle.std.specs.Prelude.{◌≡◌, ℕ, ◌∷◌, true, false, codes, pos, Some, None, []};
ghost use Rattle.jac_value.specs.declared.value.Kind.TheVariants as kind;
ghost use Rattle.jac_value.specs.declared.value.Value.TheVariants as value;
ghost use Rattle.jac_rows.specs.Apart.{IsTable};
ghost use Rattle.jac_rows.specs.Good.{IsMade, IsRecord, IsNext, ArePlainRows, AreRising, IsGoodPlain, IsGoodByGuards, IsSound};
ghost use Rattle.jac_plain.specs.Making.{AreMadeBefore};
ghost use Rattle.jac_plain.specs.Models.{AreFlat, shapes_of};
ghost use Rattle.jac_semantics_examples.specs.Library.{row};
ghost use Rattle.jac_semantics_examples.specs.Diary.{diary_app, diary_models, bare_diary, couple, diary_with, dentist, event_row};
ghost use Rattle.jac_semantics_examples.specs.States.{guarded_row, town_shapes, towns, guarded_towns};

/// The next number of a request is at least 1 and at most 2^40. Each record was made by an earlier
/// request, whose number isn't 0.
pub fn numbers_records()
    ensures first_next { IsNext 1 }
    ensures last_next { IsNext 1099511627776 }
    ensures no_next { IsNext 0 → ⊥ }
    ensures beyond { IsNext 1099511627777 → ⊥ }
    ensures made { IsMade 2 3 8194 }
    ensures not_yet { IsMade 2 2 8194 → ⊥ }
    ensures other_model { IsMade 1 3 8194 → ⊥ }
    ensures numbered_zero { IsMade 2 3 2 → ⊥ }
    ensures wide { IsMade 1 4 18446744073709563905 }
    ensures no_id { IsMade 0 1099511627776 340282366920938463463374607431768211392 → ⊥ }
    ensures before { AreMadeBefore 2 bare_diary }
    ensures at_once { AreMadeBefore 1 bare_diary → ⊥ }
    ensures in_second { AreMadeBefore 2 (diary_with dentist).tables → ⊥ }
{}

/// A record has a cell for each field, of the field's kind. Its id is wide if its model is nested.
/// A model that doesn't exist has no records.
pub fn shapes_records()
    ensures fit { IsRecord (shapes_of diary_app) 0 2 4096 (value.Text (codes "Ann") ∷ []) }
    ensures other_kind { IsRecord (shapes_of diary_app) 0 2 4096 (value.Int (pos 1) ∷ []) → ⊥ }
    ensures no_cell { IsRecord (shapes_of diary_app) 0 2 4096 [] → ⊥ }
    ensures nested { IsRecord (shapes_of diary_app) 1 4 18446744073709563905
        (value.Ref None ∷ []) }
    ensures nested_narrow { IsRecord (shapes_of diary_app) 1 4 12289 (value.Ref None ∷ []) → ⊥ }
    ensures no_model { IsRecord (shapes_of diary_app) 5 3 4101 [] → ⊥ }
    ensures made { IsRecord (shapes_of diary_app) 0 1 4096 (value.Text (codes "Ann") ∷ []) → ⊥ }
{}

/// In a plain table the ids rise, and each comes once. In a guarded table a record may have several
/// alternatives, but no two of their guards are ever true together.
pub fn orders_rows()
    ensures rising { ArePlainRows couple }
    ensures twice { ArePlainRows (row 4096 [] ∷ row 4096 [] ∷ []) → ⊥ }
    ensures falling { ArePlainRows (row 4160 [] ∷ row 4096 [] ∷ []) → ⊥ }
    ensures alternatives { AreRising (guarded_row 4096 ((5, true) ∷ []) ∷ guarded_row 4096
        ((5, false) ∷ []) ∷ guarded_row 4160 [] ∷ []) }
    ensures together { AreRising (guarded_row 4096 ((5, true) ∷ []) ∷ guarded_row 4096
        ((6, false) ∷ []) ∷ []) → ⊥ }
    ensures falling_guarded { AreRising (guarded_row 4160 [] ∷ guarded_row 4096 [] ∷ []) → ⊥ }
{}

/// A good state has a next number, and its rows are in order. Each row is a record of its model. In
/// a sound state the cells may have any kind.
pub fn keeps_good_states()
    ensures good { IsGoodPlain (shapes_of diary_app) (diary_with dentist) }
    ensures no_next { IsGoodPlain [] (record { tables = []; number = 0 }) → ⊥ }
    ensures no_records { IsGoodPlain [] (record { tables = []; number = 1 }) }
    ensures not_made { IsGoodPlain (shapes_of diary_app)
        (record { tables = bare_diary; number = 1 }) → ⊥ }
    ensures unfit { IsGoodPlain (shapes_of diary_app)
        (record { tables = (row 4096 [] ∷ []) ∷ []; number = 2 }) → ⊥ }
    ensures second_table { IsGoodPlain (shapes_of diary_app) (record {
      tables = [] ∷ (row 4097 (value.Ref None ∷ []) ∷ []) ∷ [];
      number = 2;
    }) → ⊥ }
    ensures unordered { IsGoodPlain (shapes_of diary_app) (record {
      tables = (row 4160 (value.Text [] ∷ []) ∷ row 4096 (value.Text [] ∷ []) ∷ []) ∷ [];
      number = 2;
    }) → ⊥ }
    ensures guarded { IsGoodByGuards town_shapes guarded_towns }
    ensures guarded_unfit { IsGoodByGuards [] guarded_towns → ⊥ }
    ensures sound { IsSound guarded_towns }
    ensures unsound { IsSound (record guarded_towns { number = 1 }) → ⊥ }
{}

/// An application has flat tables if the ids of its nested models, and no others, are wide.
pub fn flattens_tables()
    ensures flat { AreFlat diary_models bare_diary }
    ensures nested { AreFlat diary_models ([] ∷ (row 18446744073709563905 [] ∷ []) ∷ []) }
    ensures wide { AreFlat diary_models ((row 18446744073709563905 [] ∷ []) ∷ []) → ⊥ }
    ensures narrow { AreFlat diary_models ([] ∷ (row 12289 [] ∷ []) ∷ []) → ⊥ }
{}
