ghost use Rattle.std.specs.Prelude.{◌∷◌, false, codes, Some, None, []};
ghost use Rattle.jac_replies.specs.Refused.{refusal};
ghost use Rattle.jac_engine.specs.Answers.{IsAnswerTo};
ghost use Rattle.jac_semantics_examples.specs.Diary.{guarded_diary};
ghost use Rattle.jac_answer_examples.specs.Served.{served_diary, asks_path, asks_of_event, shows, sends_to, used_up_diary};

/// The page of a `POST` is made in the world before it, under labels that are settled in the worlds
/// after it: after a guest opens the event, its title is shown. The `POST` is refused if no number
/// is left, and only then.
pub fn answers_posts()
    ensures opened { IsAnswerTo false served_diary guarded_diary
        (asks_of_event (Some 4160) (codes "POST"))
        (shows (65552 ∷ 65553 ∷ []) (codes "dentist")) }
    ensures sent_on { IsAnswerTo false served_diary guarded_diary
        (asks_path (Some 4160) (codes "POST") (codes "/away"))
        (sends_to (65553 ∷ []) (codes "/events")) }
    ensures used_up { IsAnswerTo false served_diary used_up_diary
        (asks_of_event (Some 4160) (codes "POST")) (refusal 507 None) }
    ensures settled_before { IsAnswerTo false served_diary guarded_diary
        (asks_of_event (Some 4160) (codes "POST")) (shows (65553 ∷ []) (codes "private")) → ⊥ }
    ensures not_used_up { IsAnswerTo false served_diary guarded_diary
        (asks_of_event (Some 4160) (codes "POST")) (refusal 507 None) → ⊥ }
    ensures no_number { IsAnswerTo false served_diary used_up_diary
        (asks_of_event (Some 4160) (codes "POST"))
        (shows (65552 ∷ 65553 ∷ []) (codes "dentist")) → ⊥ }
{}
