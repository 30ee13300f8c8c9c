ghost use Rattle.std.specs.Prelude.{◌∷◌, true, codes, Some, None, []};
ghost use Rattle.jac_engine.specs.Answers.{IsAnswerTo};
ghost use Rattle.jac_semantics_examples.specs.Diary.{guarded_diary};
ghost use Rattle.jac_answer_examples.specs.Served.{served_diary, asks_of_event, asks_of_place, shows, shows_lazily};

/// With `--lazy`, the page of a `GET` names the labels that were consulted. Its labels are steady,
/// and it is the interpreter's page whatever else is shown. A `POST` is answered as without it.
pub fn answers_lazily()
    ensures place { IsAnswerTo true served_diary guarded_diary (asks_of_place (Some 4160))
        (shows_lazily (65553 ∷ []) (65553 ∷ []) (codes "clinic")) }
    ensures place_for_nobody { IsAnswerTo true served_diary guarded_diary (asks_of_place None)
        (shows_lazily [] (65553 ∷ []) (codes "with 4096")) }
    ensures event { IsAnswerTo true served_diary guarded_diary
        (asks_of_event (Some 4160) (codes "GET"))
        (shows_lazily (65553 ∷ []) (65552 ∷ 65553 ∷ []) (codes "private at clinic")) }
    ensures opened { IsAnswerTo true served_diary guarded_diary
        (asks_of_event (Some 4160) (codes "POST"))
        (shows (65552 ∷ 65553 ∷ []) (codes "dentist")) }
    ensures not_lazily { IsAnswerTo true served_diary guarded_diary (asks_of_place (Some 4160))
        (shows (65553 ∷ []) (codes "clinic")) → ⊥ }
    ensures none_consulted { IsAnswerTo true served_diary guarded_diary (asks_of_place None)
        (shows_lazily [] [] (codes "with 4096")) → ⊥ }
    ensures forbidden { IsAnswerTo true served_diary guarded_diary
        (asks_of_event (Some 4160) (codes "GET"))
        (shows_lazily (65552 ∷ 65553 ∷ []) (65552 ∷ 65553 ∷ []) (codes "dentist at clinic")) → ⊥ }
    ensures lacking { IsAnswerTo true served_diary guarded_diary (asks_of_place (Some 4160))
        (shows_lazily [] (65553 ∷ []) (codes "with 4096")) → ⊥ }
{}
