ghost use Rattle.std.specs.Prelude.{◌≡◌, ℕ, ◌∷◌, Bool, true, false, codes, Some, None, []};
ghost use Rattle.jac_replies.specs.Refused.{refusal};
ghost use Rattle.jac_engine.specs.Answers.{HasForm, world_left, is_stored, stores};
ghost use Rattle.jac_semantics_examples.specs.Diary.{guarded_diary};
ghost use Rattle.jac_answer_examples.specs.Served.{served_diary, asks_path, asks_of_event, shows, shows_lazily, opened_diary};

/// What an answer leaves of each world, and whether it comes with a change. Only the page of a
/// `POST` does.
pub fn leaves_worlds()
    ensures opened { (w : ℕ → Bool) → world_left w served_diary
        (asks_of_event (Some 4160) (codes "POST")) (shows (65552 ∷ 65553 ∷ []) (codes "dentist"))
        (guarded_diary w) ≡ opened_diary w }
    ensures refused { (w : ℕ → Bool) → world_left w served_diary
        (asks_of_event (Some 4160) (codes "POST")) (refusal 507 None) (guarded_diary w)
        ≡ guarded_diary w }
    ensures read { (w : ℕ → Bool) → world_left w served_diary (asks_of_event None (codes "GET"))
        (shows [] (codes "private at with 4096")) (guarded_diary w) ≡ guarded_diary w }
    ensures no_view { (w : ℕ → Bool) → world_left w served_diary
        (asks_path None (codes "POST") (codes "/events")) (shows [] []) (guarded_diary w)
        ≡ guarded_diary w }
    ensures change { is_stored served_diary (asks_of_event None (codes "POST"))
        (shows (65552 ∷ []) (codes "dentist")) ≡ true }
    ensures no_change { is_stored served_diary (asks_of_event None (codes "POST"))
        (refusal 507 None) ≡ false }
    ensures no_change_read { is_stored served_diary (asks_of_event None (codes "GET"))
        (shows [] (codes "private at with 4096")) ≡ false }
    ensures no_change_unknown { is_stored served_diary
        (asks_path None (codes "POST") (codes "/events")) (shows [] []) ≡ false }
    ensures no_change_method { is_stored served_diary (asks_of_event None (codes "PUT"))
        (shows [] []) ≡ false }
    ensures may_change { stores served_diary
        (asks_path None (codes "POST") (codes "/away")) ≡ true }
    ensures may_read { stores served_diary (asks_of_event None (codes "HEAD")) ≡ false }
    ensures unknown { stores served_diary
        (asks_path None (codes "POST") (codes "/events")) ≡ false }
    ensures no_method { stores served_diary (asks_of_event None (codes "PUT")) ≡ false }
{}

/// What is known of an answer if nothing is known of the worlds: a page has labels that rise, and a
/// refusal has its cause.
pub fn tells_forms()
    ensures page { HasForm false served_diary (asks_of_event None (codes "GET"))
        (shows (1 ∷ 5 ∷ []) (codes "any")) }
    ensures lazily { HasForm true served_diary (asks_of_event None (codes "GET"))
        (shows_lazily (1 ∷ []) (1 ∷ 5 ∷ []) (codes "any")) }
    ensures post { HasForm true served_diary (asks_of_event None (codes "POST"))
        (shows (1 ∷ []) (codes "any")) }
    ensures used_up { HasForm false served_diary (asks_of_event None (codes "POST"))
        (refusal 507 None) }
    ensures no_view { HasForm false served_diary (asks_path None (codes "POST") (codes "/events"))
        (refusal 404 None) }
    ensures no_method { HasForm false served_diary (asks_path None (codes "GET") (codes "/away"))
        (refusal 405 (Some (codes "POST"))) }
    ensures falling { HasForm false served_diary (asks_of_event None (codes "GET"))
        (shows (5 ∷ 1 ∷ []) (codes "any")) → ⊥ }
    ensures not_lazily { HasForm false served_diary (asks_of_event None (codes "GET"))
        (shows_lazily (1 ∷ []) (1 ∷ 5 ∷ []) (codes "any")) → ⊥ }
    ensures falling_consulted { HasForm true served_diary (asks_of_event None (codes "GET"))
        (shows_lazily (1 ∷ []) (5 ∷ 1 ∷ []) (codes "any")) → ⊥ }
    ensures falling_lazily { HasForm true served_diary (asks_of_event None (codes "GET"))
        (shows_lazily (5 ∷ 1 ∷ []) (1 ∷ 5 ∷ []) (codes "any")) → ⊥ }
    ensures used_up_read { HasForm false served_diary (asks_of_event None (codes "GET"))
        (refusal 507 None) → ⊥ }
    ensures another_refusal { HasForm false served_diary (asks_of_event None (codes "POST"))
        (refusal 503 None) → ⊥ }
    ensures page_of_no_view { HasForm false served_diary
        (asks_path None (codes "POST") (codes "/events")) (shows [] []) → ⊥ }
{}
