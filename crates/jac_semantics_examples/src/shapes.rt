ghost use Rattle.std.specs.Prelude.{◌≡◌, ◌∷◌, true, false, codes, pos, map, Some, None, []};
ghost use Rattle.jac_value.specs.declared.value.Kind.TheVariants as kind;
ghost use Rattle.jac_value.specs.declared.value.Value.TheVariants as value;
ghost use Rattle.jac_lang.specs.Syntax.{Statement};
ghost use Rattle.jac_rows.specs.Good.{have_kinds};
ghost use Rattle.jac_plain.specs.Making.{are_apart, is_among};
ghost use Rattle.jac_plain.specs.Models.{are_without_groups, is_shaped, are_sited, shapes_of};
ghost use Rattle.jac_plain.specs.Reading.{is_reading, are_reading};
ghost use Rattle.jac_semantics_examples.specs.Terms.{num, steps};
ghost use Rattle.jac_semantics_examples.specs.Library.{library_app, library_models};
ghost use Rattle.jac_semantics_examples.specs.Diary.{diary_app, diary_models};
ghost use Rattle.jac_semantics_examples.specs.Kept.{all_forms, inside_others, siting};

/// A `create`, an `update` or a `delete` writes, even inside other statements. No other statement
/// writes.
pub fn tells_writes()
    ensures forms { map is_reading all_forms
        ≡ true ∷ true ∷ true ∷ true ∷ true ∷ true ∷ false ∷ false ∷ false ∷ true ∷ true ∷ true
        ∷ true ∷ [] }
    ensures inside { map is_reading (inside_others (Statement.delete (codes "Book") (num 1)))
        ≡ false ∷ false ∷ false ∷ false ∷ false ∷ [] }
    ensures inside_reading { map is_reading (inside_others Statement.missing)
        ≡ true ∷ true ∷ true ∷ true ∷ true ∷ [] }
    ensures nothing { are_reading (steps []) ≡ true }
    ensures first { are_reading (steps (Statement.delete (codes "Book") (num 1)
        ∷ Statement.missing ∷ [])) ≡ false }
    ensures last { are_reading (steps (Statement.missing
        ∷ Statement.delete (codes "Book") (num 1) ∷ [])) ≡ false }
{}

/// A view has 64 sites for creates.
pub fn counts_sites()
    ensures last { are_sited (steps (siting 63 ∷ [])) ≡ true }
    ensures beyond { are_sited (steps (siting 64 ∷ [])) ≡ false }
    ensures inside { map (λ s. are_sited (steps (s ∷ []))) (inside_others (siting 64))
        ≡ false ∷ false ∷ false ∷ false ∷ false ∷ [] }
    ensures inside_placed { map (λ s. are_sited (steps (s ∷ []))) (inside_others (siting 63))
        ≡ true ∷ true ∷ true ∷ true ∷ true ∷ [] }
    ensures second { are_sited (steps (siting 0 ∷ siting 64 ∷ [])) ≡ false }
    ensures in_create { are_sited (steps (Statement.create (codes "b") (codes "Book") 0 []
        (steps (siting 64 ∷ [])) ∷ [])) ≡ false }
    ensures none { are_sited (steps all_forms) ≡ true }
    ensures apart { are_apart (1 ∷ 2 ∷ 3 ∷ []) ≡ true }
    ensures twice { are_apart (1 ∷ 2 ∷ 1 ∷ []) ≡ false }
    ensures twice_behind { are_apart (1 ∷ 2 ∷ 2 ∷ []) ≡ false }
    ensures among { is_among 2 (1 ∷ 2 ∷ []) ≡ true }
    ensures not_among { is_among 3 (1 ∷ 2 ∷ []) ≡ false }
{}

/// The shapes of models: the kinds of their fields, which models are nested, and which have groups.
pub fn shapes_models()
    ensures library { shapes_of library_app
        ≡ record { kinds = kind.Text ∷ []; nested = false }
        ∷ record { kinds = kind.Text ∷ []; nested = false }
        ∷ record { kinds = kind.Text ∷ kind.Int ∷ []; nested = false }
        ∷ record { kinds = kind.Ref 2 ∷ kind.Ref 1 ∷ []; nested = false } ∷ [] }
    ensures diary { shapes_of diary_app
        ≡ record { kinds = kind.Text ∷ []; nested = false }
        ∷ record { kinds = kind.Ref 0 ∷ []; nested = true }
        ∷ record { kinds = kind.Text ∷ kind.Ref 0 ∷ kind.Bool ∷ kind.Text ∷ []; nested = false }
        ∷ record { kinds = kind.Text ∷ kind.Ref 0 ∷ []; nested = false } ∷ [] }
    ensures without_groups { are_without_groups library_models ≡ true }
    ensures with_groups { are_without_groups diary_models ≡ false }
    ensures nested { is_shaped true 18446744073709563905 ≡ true }
    ensures nested_narrow { is_shaped true 12289 ≡ false }
    ensures narrow { is_shaped false 12289 ≡ true }
    ensures wide { is_shaped false 18446744073709563905 ≡ false }
{}

/// There is one cell for each field, of the field's kind. A reference refers to a record of its
/// model, or it is none.
pub fn fits_cells()
    ensures fit { have_kinds (kind.Text ∷ kind.Int ∷ kind.Bool ∷ kind.Ref 2 ∷ [])
        (value.Text (codes "a") ∷ value.Int (pos 1) ∷ value.Bool true ∷ value.Ref (Some 4290) ∷ [])
        ≡ true }
    ensures none { have_kinds (kind.Ref 2 ∷ []) (value.Ref None ∷ []) ≡ true }
    ensures other_model { have_kinds (kind.Ref 2 ∷ []) (value.Ref (Some 4289) ∷ []) ≡ false }
    ensures other_kind { have_kinds (kind.Text ∷ kind.Int ∷ [])
        (value.Text (codes "a") ∷ value.Text (codes "b") ∷ []) ≡ false }
    ensures first_kind { have_kinds (kind.Int ∷ kind.Int ∷ [])
        (value.Text (codes "a") ∷ value.Int (pos 1) ∷ []) ≡ false }
    ensures no_cells { have_kinds [] [] ≡ true }
    ensures too_few { have_kinds (kind.Int ∷ kind.Int ∷ []) (value.Int (pos 1) ∷ []) ≡ false }
    ensures too_many { have_kinds (kind.Int ∷ []) (value.Int (pos 1) ∷ value.Int (pos 1) ∷ [])
        ≡ false }
{}
