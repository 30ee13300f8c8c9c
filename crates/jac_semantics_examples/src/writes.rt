ghost use Rattle.std.specs.Prelude.{◌≡◌, ◌∷◌, true, false, codes, pos, Some, None, []};
ghost use Rattle.jac_value.specs.declared.value.Value.TheVariants as value;
ghost use Rattle.jac_lang.specs.declared.queries.Order.TheVariants as orders;
ghost use Rattle.jac_lang.specs.Syntax.{Expression, Statement};
ghost use Rattle.jac_world.specs.World.{shown_by};
ghost use Rattle.jac_rows.specs.Tables.{rows_of};
ghost use Rattle.jac_plain.specs.Records.{public_cell, shielded_cells, every_field};
ghost use Rattle.jac_plain.specs.Statements.{leaves_all};
ghost use Rattle.jac_semantics_examples.specs.Terms.{num, word, truth, the, eq, a_binder, sole, asks, sets, steps};
ghost use Rattle.jac_semantics_examples.specs.Library.{library_tables, emma, odyssey, row, asked_by_ann, begun_with, leaves_library, puts, books_left, names_value, first_made};
ghost use Rattle.jac_semantics_examples.specs.Diary.{bare_diary, couple, event_row, dentist, diary_with, events_left, leaves_diary, diary_puts, make_dentist, make_entry, numbered_models};

/// `create` makes a record with the id (number · 64 + site) · 64 + the place of its model. The rows
/// keep the order of ids. A field that isn't set has the default of its kind. The name is bound
/// only for the statements inside.
pub fn creates()
    ensures shown { puts (Statement.create (codes "b") (codes "Book") 0
        (sets (codes "title") (word (codes "Iliad")) ∷ [])
        (steps (Statement.put (Expression.get (codes "Book") (codes "title") (the (codes "b")))
        ∷ Statement.put (Expression.get (codes "Book") (codes "cents") (the (codes "b"))) ∷ []))
        ∷ []) ≡ codes "Iliad0" }
    ensures number { puts (Statement.create (codes "b") (codes "Book") 7 []
        (steps (Statement.put (the (codes "b")) ∷ [])) ∷ []) ≡ codes "8642" }
    ensures behind { books_left (Statement.create (codes "b") (codes "Book") 0
        (sets (codes "title") (word (codes "Iliad")) ∷ []) (steps []) ∷ [])
        ≡ emma ∷ odyssey ∷ row 8194 (value.Text (codes "Iliad") ∷ value.Int (pos 0) ∷ []) ∷ [] }
    ensures before { rows_of (leaves_all (asked_by_ann 1) (steps (Statement.create (codes "b")
        (codes "Book") 0 (sets (codes "cents") (num 5) ∷ []) (steps []) ∷ []))
        (begun_with [] library_tables)).tables 2
        ≡ row 4098 (value.Text [] ∷ value.Int (pos 5) ∷ []) ∷ emma ∷ odyssey ∷ [] }
    ensures between { rows_of (leaves_all (asked_by_ann 1) (steps (Statement.create (codes "b")
        (codes "Book") 4 [] (steps []) ∷ [])) (begun_with []
        ([] ∷ [] ∷ (emma ∷ row 8194 [] ∷ []) ∷ [] ∷ []))).tables 2
        ≡ emma ∷ row 4354 (value.Text [] ∷ value.Int (pos 0) ∷ []) ∷ row 8194 [] ∷ [] }
    ensures once { rows_of (leaves_all (asked_by_ann 1) (steps (Statement.create (codes "b")
        (codes "Book") 3 [] (steps []) ∷ [])) (begun_with [] library_tables)).tables 2
        ≡ row 4290 (value.Text [] ∷ value.Int (pos 0) ∷ []) ∷ odyssey ∷ [] }
    ensures other_tables { rows_of (leaves_library (Statement.create (codes "u") (codes "User") 0 []
        (steps []) ∷ [])).tables 2 ≡ emma ∷ odyssey ∷ [] }
    ensures gone { (leaves_library (Statement.create (codes "b") (codes "Book") 0 [] (steps [])
        ∷ [])).env ≡ [] }
    ensures references { rows_of (leaves_library (Statement.create (codes "l") (codes "Loan") 0
        (sets (codes "book") (first_made (codes "Loan"))
        ∷ sets (codes "reader") (first_made (codes "Reader")) ∷ []) (steps []) ∷ [])).tables 3
        ≡ row 4419 (value.Ref (Some 4290) ∷ value.Ref (Some 4161) ∷ [])
        ∷ row 8195 (value.Ref None ∷ value.Ref (Some 4161) ∷ []) ∷ [] }
    ensures no_model { leaves_library (Statement.create (codes "t") (codes "Town") 0 []
        (steps (Statement.put (num 1) ∷ [])) ∷ []) ≡ begun_with [] library_tables }
{}

/// `update` sets the named fields of the record, and no others. If there is no such record, it does
/// nothing. All expressions are read before anything changes.
pub fn updates()
    ensures shown { puts (Statement.bind (codes "b") (first_made (codes "Book"))
        (steps (Statement.update (codes "Book") (the (codes "b"))
        (sets (codes "cents") (num 950) ∷ [])
        ∷ Statement.put (Expression.get (codes "Book") (codes "title") (the (codes "b")))
        ∷ Statement.put (Expression.get (codes "Book") (codes "cents") (the (codes "b"))) ∷ []))
        ∷ []) ≡ codes "Emma950" }
    ensures first { books_left (Statement.update (codes "Book") (first_made (codes "Book"))
        (sets (codes "cents") (num 950) ∷ []) ∷ [])
        ≡ row 4290 (value.Text (codes "Emma") ∷ value.Int (pos 950) ∷ []) ∷ odyssey ∷ [] }
    ensures second { books_left (Statement.update (codes "Book")
        (Expression.first (sole (codes "b") (codes "Book")) (truth true)
        (orders.Down (codes "b") (codes "cents")))
        (sets (codes "title") (word (codes "Iliad")) ∷ []) ∷ [])
        ≡ emma ∷ row 4354 (value.Text (codes "Iliad") ∷ value.Int (pos 2500) ∷ []) ∷ [] }
    ensures none { books_left (Statement.update (codes "Book") (Expression.none_of (codes "Book"))
        (sets (codes "cents") (num 950) ∷ []) ∷ []) ≡ emma ∷ odyssey ∷ [] }
    ensures no_field { books_left (Statement.update (codes "Book") (first_made (codes "Book"))
        (sets (codes "town") (num 950) ∷ []) ∷ []) ≡ emma ∷ odyssey ∷ [] }
    ensures no_model { leaves_library (Statement.update (codes "Town") (first_made (codes "Book"))
        (sets (codes "cents") (num 950) ∷ []) ∷ []) ≡ begun_with [] library_tables }
    ensures unlike { books_left (Statement.update (codes "Book") (first_made (codes "Book"))
        (sets (codes "cents") (word (codes "x")) ∷ []) ∷ [])
        ≡ row 4290 (value.Text (codes "Emma") ∷ value.Int (pos 0) ∷ []) ∷ odyssey ∷ [] }
    ensures read_before { events_left (65552 ∷ 65553 ∷ []) (Statement.update (codes "Event")
        (the (codes "e"))
        (sets (codes "title") (Expression.get (codes "Event") (codes "place") (the (codes "e")))
        ∷ sets (codes "place") (Expression.get (codes "Event") (codes "title") (the (codes "e")))
        ∷ []) ∷ []) (diary_with dentist).tables
        ≡ event_row (codes "clinic") (Some 4096) false (codes "dentist") ∷ [] }
{}

/// `delete` removes the record. If there is no such record, it does nothing.
pub fn deletes()
    ensures shown { puts (Statement.bind (codes "b") (first_made (codes "Book"))
        (steps (Statement.delete (codes "Book") (the (codes "b"))
        ∷ Statement.put (Expression.live (the (codes "b"))) ∷ [])) ∷ []) ≡ codes "false" }
    ensures first { books_left (Statement.delete (codes "Book") (first_made (codes "Book")) ∷ [])
        ≡ odyssey ∷ [] }
    ensures second { books_left (Statement.delete (codes "Book")
        (Expression.first (sole (codes "b") (codes "Book")) (truth true)
        (orders.Down (codes "b") (codes "cents"))) ∷ []) ≡ emma ∷ [] }
    ensures none { books_left (Statement.delete (codes "Book")
        (Expression.none_of (codes "Book")) ∷ []) ≡ emma ∷ odyssey ∷ [] }
    ensures gone { rows_of (leaves_all (asked_by_ann 2)
        (steps (Statement.delete (codes "Book") (the (codes "b")) ∷ []))
        (begun_with (names_value (codes "b") (value.Ref (Some 4418)) ∷ []) library_tables)).tables 2
        ≡ emma ∷ odyssey ∷ [] }
    ensures no_model { leaves_library (Statement.delete (codes "Town")
        (first_made (codes "Book")) ∷ []) ≡ begun_with [] library_tables }
{}

/// If the label of a guarded field isn't shown, a `create` and an `update` store the field's public
/// value, which is computed from the record that the statement would leave. An `update` does this
/// only for the fields that it names.
pub fn guards_fields()
    ensures hidden { events_left [] (make_dentist ∷ []) bare_diary
        ≡ event_row (codes "private") (Some 4096) false (codes "with 4096") ∷ [] }
    ensures title { events_left (65552 ∷ []) (make_dentist ∷ []) bare_diary
        ≡ event_row (codes "dentist") (Some 4096) false (codes "with 4096") ∷ [] }
    ensures place { events_left (65553 ∷ []) (make_dentist ∷ []) bare_diary
        ≡ event_row (codes "private") (Some 4096) false (codes "clinic") ∷ [] }
    ensures both { events_left (65552 ∷ 65553 ∷ []) (make_dentist ∷ []) bare_diary
        ≡ dentist ∷ [] }
    ensures others { events_left (65551 ∷ 65554 ∷ []) (make_dentist ∷ []) bare_diary
        ≡ event_row (codes "private") (Some 4096) false (codes "with 4096") ∷ [] }
    ensures named { events_left [] (Statement.update (codes "Event") (the (codes "e"))
        (sets (codes "title") (word (codes "party")) ∷ []) ∷ []) (diary_with dentist).tables
        ≡ event_row (codes "private") (Some 4096) false (codes "clinic") ∷ [] }
    ensures named_and_shown { events_left (65552 ∷ []) (Statement.update (codes "Event")
        (the (codes "e")) (sets (codes "title") (word (codes "party")) ∷ []) ∷ [])
        (diary_with dentist).tables
        ≡ event_row (codes "party") (Some 4096) false (codes "clinic") ∷ [] }
    ensures as_it_is_left { events_left [] (Statement.update (codes "Event") (the (codes "e"))
        (sets (codes "place") (word (codes "home"))
        ∷ sets (codes "host") (Expression.none_of (codes "User")) ∷ []) ∷ [])
        (diary_with dentist).tables
        ≡ event_row (codes "dentist") None false (codes "with ") ∷ [] }
    ensures no_field { events_left [] (Statement.update (codes "Event") (the (codes "e"))
        (sets (codes "town") (word (codes "home")) ∷ []) ∷ []) (diary_with dentist).tables
        ≡ dentist ∷ [] }
    ensures unguarded { events_left [] (Statement.update (codes "Event") (the (codes "e"))
        (sets (codes "open") (truth true) ∷ []) ∷ []) (diary_with dentist).tables
        ≡ event_row (codes "dentist") (Some 4096) true (codes "clinic") ∷ [] }
    ensures number { public_cell numbered_models 0 4096 (value.Text (codes "hm") ∷ []) 0
        (value.Text (codes "hm")) ≡ value.Text (codes "4096") }
    ensures number_stored { shielded_cells numbered_models (shown_by []) 0 4096 every_field
        (value.Text (codes "hm") ∷ []) ≡ value.Text (codes "4096") ∷ [] }
{}

/// A record of a model with a group that hides it is made only if its label is shown. For
/// everybody, its `create` binds the name to the reference to it.
pub fn hides_records()
    ensures hidden { (leaves_diary [] 2 (make_entry ∷ [])).tables ≡ bare_diary }
    ensures shown { (leaves_diary (66072 ∷ []) 2 (make_entry ∷ [])).tables
        ≡ couple ∷ [] ∷ [] ∷ (row 8259 (value.Text (codes "hm") ∷ value.Ref (Some 4096) ∷ [])
        ∷ []) ∷ [] }
    ensures named { diary_puts 2 (make_entry ∷ []) ≡ codes "8259" }
{}

/// In a loop over one binder, a record of a nested model is made around the loop's record: that
/// record's id times 2^52 is added to its id. Outside such a loop, or if the loop's record was
/// itself made so, its id is an ordinary one.
pub fn makes_in_loops()
    ensures around { diary_puts 3 (Statement.each (asks (sole (codes "u") (codes "User"))
        (truth true) orders.Key) (steps (Statement.create (codes "i") (codes "Invite") 0
        (sets (codes "to") (the (codes "u")) ∷ [])
        (steps (Statement.put (the (codes "i")) ∷ Statement.put (word (codes ";")) ∷ []))
        ∷ [])) ∷ []) ≡ codes "18446744073709563905;18734974449861275649;" }
    ensures rows { (leaves_diary [] 3 (Statement.each (asks (sole (codes "u") (codes "User"))
        (truth true) orders.Key) (steps (Statement.create (codes "i") (codes "Invite") 0
        (sets (codes "to") (the (codes "u")) ∷ []) (steps []) ∷ [])) ∷ [])).tables
        ≡ couple ∷ (row 18446744073709563905 (value.Ref (Some 4096) ∷ [])
        ∷ row 18734974449861275649 (value.Ref (Some 4160) ∷ []) ∷ []) ∷ [] ∷ [] ∷ [] }
    ensures outside { diary_puts 3 (Statement.create (codes "i") (codes "Invite") 0 []
        (steps (Statement.put (the (codes "i")) ∷ [])) ∷ []) ≡ codes "12289" }
    ensures pairs { diary_puts 3 (Statement.each (asks
        (a_binder (codes "u") (codes "User") ∷ a_binder (codes "v") (codes "User") ∷ [])
        (eq (the (codes "u")) Expression.viewer) (orders.Down (codes "v")
        (codes "name"))) (steps (Statement.create (codes "i") (codes "Invite") 0 []
        (steps (Statement.put (the (codes "i")) ∷ [])) ∷ [])) ∷ []) ≡ codes "1228912289" }
    ensures not_nested { diary_puts 3 (Statement.each (asks (sole (codes "u") (codes "User"))
        (truth true) orders.Key) (steps (Statement.create (codes "x") (codes "User") 0 []
        (steps (Statement.put (the (codes "x")) ∷ Statement.put (word (codes ";")) ∷ []))
        ∷ [])) ∷ []) ≡ codes "12288;12288;" }
    ensures around_one_made_so { diary_puts 3 (Statement.each (asks (sole (codes "u")
        (codes "User")) (eq (the (codes "u")) Expression.viewer) orders.Key)
        (steps (Statement.create (codes "i") (codes "Invite") 0 []
        (steps (Statement.each (asks (sole (codes "v") (codes "Invite")) (truth true) orders.Key)
        (steps (Statement.create (codes "j") (codes "Invite") 1 []
        (steps (Statement.put (the (codes "j")) ∷ [])) ∷ [])) ∷ [])) ∷ [])) ∷ [])
        ≡ codes "12353" }
{}
