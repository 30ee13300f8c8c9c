ghost use Rattle.std.specs.Prelude.{ℕ, ◌∷◌, true, false, codes, Some, []};
ghost use Rattle.jac_lang.specs.declared.queries.Order.TheVariants as orders;
ghost use Rattle.jac_lang.specs.Syntax.{Expression, Statement};
ghost use Rattle.jac_plain.specs.Making.{MayRun, MayRunAll, AreAbsent, IsAbsent};
ghost use Rattle.jac_semantics_examples.specs.Terms.{truth, the, sole, asks, sets, steps};
ghost use Rattle.jac_semantics_examples.specs.Library.{begun_with, row};
ghost use Rattle.jac_semantics_examples.specs.Diary.{asked_for, diary_models, couple, bare_diary, diary_with, dentist, make_dentist, make_entry, makes_event, makes_invite};

/// A `create` needs a request number below the next number, and an id that no record has.
pub fn asks_of_creates()
    ensures new { MayRun 3 (asked_for [] 2) make_dentist (begun_with [] bare_diary) }
    ensures late { MayRun 2 (asked_for [] 2) make_dentist (begun_with [] bare_diary) → ⊥ }
    ensures standing { MayRun 3 (asked_for [] 2) make_dentist
        (begun_with [] (diary_with dentist).tables) → ⊥ }
    ensures other_site { MayRun 3 (asked_for [] 2) (makes_event 1 [])
        (begun_with [] (diary_with dentist).tables) }
    ensures other_number { MayRun 4 (asked_for [] 3) make_dentist
        (begun_with [] (diary_with dentist).tables) }
    ensures no_model { MayRun 1 (asked_for [] 2)
        (Statement.create (codes "t") (codes "Town") 0 [] (steps (make_dentist ∷ [])))
        (begun_with [] bare_diary) }
    ensures others { MayRunAll 1 (asked_for [] 2) (steps (Statement.put (truth true)
        ∷ Statement.escape (truth true) ∷ Statement.assign (codes "x") (truth true)
        ∷ Statement.update (codes "Event") (the (codes "e")) []
        ∷ Statement.delete (codes "Event") (the (codes "e")) ∷ Statement.missing
        ∷ Statement.redirect (truth true) ∷ Statement.template (codes "a") ∷ []))
        (begun_with [] bare_diary) }
{}

/// A statement after a `create`, or inside it, is checked over the tables that the `create` leaves.
/// If its record is hidden, the `create` leaves none.
pub fn asks_behind_creates()
    ensures two_sites { MayRunAll 3 (asked_for [] 2) (steps (make_dentist ∷ makes_event 1 [] ∷ []))
        (begun_with [] bare_diary) }
    ensures one_site { MayRunAll 3 (asked_for [] 2) (steps (make_dentist ∷ make_dentist ∷ []))
        (begun_with [] bare_diary) → ⊥ }
    ensures inside { MayRun 3 (asked_for [] 2) (makes_event 0 (makes_event 1 [] ∷ []))
        (begun_with [] bare_diary) }
    ensures inside_itself { MayRun 3 (asked_for [] 2) (makes_event 0 (makes_event 0 [] ∷ []))
        (begun_with [] bare_diary) → ⊥ }
    ensures hidden { MayRunAll 3 (asked_for [] 2) (steps (make_entry ∷ make_entry ∷ []))
        (begun_with [] bare_diary) }
    ensures shown { MayRunAll 3 (asked_for (66072 ∷ []) 2) (steps (make_entry ∷ make_entry ∷ []))
        (begun_with [] bare_diary) → ⊥ }
    ensures deleted { MayRunAll 3 (asked_for [] 2) (steps (makes_event 0
        (Statement.delete (codes "Event") (the (codes "d")) ∷ []) ∷ make_dentist ∷ []))
        (begun_with [] bare_diary) }
{}

/// In an `if`, only the side that runs is checked. In a `let` the name is bound. A block is checked
/// as the statements in it.
pub fn asks_inside_statements()
    ensures first { MayRun 3 (asked_for [] 2) (Statement.branch (truth true)
        (steps (makes_event 1 [] ∷ [])) (steps (make_dentist ∷ [])))
        (begun_with [] (diary_with dentist).tables) }
    ensures second { MayRun 3 (asked_for [] 2) (Statement.branch (truth false)
        (steps (makes_event 1 [] ∷ [])) (steps (make_dentist ∷ [])))
        (begun_with [] (diary_with dentist).tables) → ⊥ }
    ensures bound { MayRun 3 (asked_for [] 2) (Statement.bind (codes "x") (truth true)
        (steps (Statement.branch (the (codes "x")) (steps (makes_event 1 [] ∷ []))
        (steps (make_dentist ∷ [])) ∷ []))) (begun_with [] (diary_with dentist).tables) }
    ensures in_bind { MayRun 3 (asked_for [] 2) (Statement.bind (codes "x") (truth true)
        (steps (make_dentist ∷ []))) (begun_with [] (diary_with dentist).tables) → ⊥ }
    ensures in_block { MayRun 3 (asked_for [] 2) (Statement.block (steps (make_dentist ∷ [])))
        (begun_with [] (diary_with dentist).tables) → ⊥ }
{}

/// In a loop, a record of a nested model is new around each record of the loop. A record of another
/// model is new only once.
pub fn asks_in_loops()
    ensures nested { MayRun 3 (asked_for [] 2) (Statement.each (asks (sole (codes "u")
        (codes "User")) (truth true) orders.Key) (steps (makes_invite ∷ [])))
        (begun_with [] bare_diary) }
    ensures flat { MayRun 3 (asked_for [] 2) (Statement.each (asks (sole (codes "u")
        (codes "User")) (truth true) orders.Key) (steps (make_dentist ∷ [])))
        (begun_with [] bare_diary) → ⊥ }
    ensures once { MayRun 3 (asked_for [] 2) (Statement.each (asks (sole (codes "e")
        (codes "Event")) (truth true) orders.Key) (steps (makes_event 1 [] ∷ [])))
        (begun_with [] (diary_with dentist).tables) }
    ensures never { MayRun 1 (asked_for [] 2) (Statement.each (asks (sole (codes "u")
        (codes "User")) (truth false) orders.Key) (steps (make_dentist ∷ [])))
        (begun_with [] bare_diary) }
{}

/// None of the records that a request may make exists yet: for no site, of no model, and around no
/// record.
pub fn finds_no_records()
    ensures empty { AreAbsent diary_models 2 (0 ∷ 1 ∷ []) [] }
    ensures no_site { AreAbsent diary_models 1 [] bare_diary }
    ensures standing { AreAbsent diary_models 1 (0 ∷ []) bare_diary → ⊥ }
    ensures second_site { AreAbsent diary_models 1 (0 ∷ 1 ∷ [])
        ((row 4160 [] ∷ []) ∷ []) → ⊥ }
    ensures around { AreAbsent diary_models 3 (0 ∷ []) ([] ∷ (row 18446744073709563905 [] ∷ [])
        ∷ []) → ⊥ }
    ensures absent { IsAbsent 4224 couple }
    ensures present { IsAbsent 4160 couple → ⊥ }
{}
