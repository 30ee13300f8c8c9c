ghost use Rattle.std.specs.Prelude.{◌∷◌, false, codes, Some, None, []};
ghost use Rattle.jac_replies.specs.Refused.{refusal};
ghost use Rattle.jac_engine.specs.Answers.{IsAnswerTo};
ghost use Rattle.jac_semantics_examples.specs.Diary.{guarded_diary};
ghost use Rattle.jac_answer_examples.specs.Served.{served_diary, asks_of_event, shows, shows_lazily};

/// The page of a `GET` is the interpreter's page under labels that are settled for the viewer, and
/// it names only those labels. `HEAD` is answered as `GET`. A parameter in the path takes
/// precedence over one in the query string.
pub fn answers_gets()
    ensures host { IsAnswerTo false served_diary guarded_diary
        (asks_of_event (Some 4096) (codes "GET"))
        (shows (65552 ∷ 65553 ∷ []) (codes "dentist at clinic")) }
    ensures guest { IsAnswerTo false served_diary guarded_diary
        (asks_of_event (Some 4160) (codes "GET")) (shows (65553 ∷ []) (codes "private at clinic")) }
    ensures nobody { IsAnswerTo false served_diary guarded_diary
        (asks_of_event None (codes "GET")) (shows [] (codes "private at with 4096")) }
    ensures head { IsAnswerTo false served_diary guarded_diary
        (asks_of_event (Some 4160) (codes "HEAD"))
        (shows (65553 ∷ []) (codes "private at clinic")) }
    ensures forbidden { IsAnswerTo false served_diary guarded_diary
        (asks_of_event (Some 4160) (codes "GET"))
        (shows (65552 ∷ 65553 ∷ []) (codes "dentist at clinic")) → ⊥ }
    ensures lacking { IsAnswerTo false served_diary guarded_diary
        (asks_of_event (Some 4160) (codes "GET")) (shows [] (codes "private at with 4096")) → ⊥ }
    ensures other_page { IsAnswerTo false served_diary guarded_diary
        (asks_of_event (Some 4160) (codes "GET"))
        (shows (65553 ∷ []) (codes "dentist at clinic")) → ⊥ }
    ensures consulted { IsAnswerTo false served_diary guarded_diary
        (asks_of_event (Some 4160) (codes "GET"))
        (shows_lazily (65553 ∷ []) (65552 ∷ 65553 ∷ []) (codes "private at clinic")) → ⊥ }
    ensures refused { IsAnswerTo false served_diary guarded_diary
        (asks_of_event (Some 4160) (codes "GET")) (refusal 404 None) → ⊥ }
{}
