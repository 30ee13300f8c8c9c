ghost use Rattle.std.specs.Prelude.{◌∷◌, false, codes, Some, None, []};
ghost use Rattle.jac_replies.specs.Refused.{refusal};
ghost use Rattle.jac_engine.specs.Answers.{IsAnswerTo};
ghost use Rattle.jac_semantics_examples.specs.Diary.{guarded_diary};
ghost use Rattle.jac_answer_examples.specs.Served.{served_diary, asks_path, asks_of_event, shows};

/// A path without a view gets the status 404. A method that the path's views don't have gets 405,
/// with the methods that they have.
pub fn refuses()
    ensures no_view { IsAnswerTo false served_diary guarded_diary
        (asks_path None (codes "GET") (codes "/events")) (refusal 404 None) }
    ensures both { IsAnswerTo false served_diary guarded_diary
        (asks_of_event None (codes "PUT")) (refusal 405 (Some (codes "GET, HEAD, POST"))) }
    ensures gets_alone { IsAnswerTo false served_diary guarded_diary
        (asks_path None (codes "POST") (codes "/places/8194"))
        (refusal 405 (Some (codes "GET, HEAD"))) }
    ensures posts_alone { IsAnswerTo false served_diary guarded_diary
        (asks_path None (codes "GET") (codes "/away")) (refusal 405 (Some (codes "POST"))) }
    ensures page { IsAnswerTo false served_diary guarded_diary
        (asks_path None (codes "GET") (codes "/events")) (shows [] []) → ⊥ }
    ensures no_method { IsAnswerTo false served_diary guarded_diary
        (asks_of_event None (codes "PUT")) (refusal 404 None) → ⊥ }
    ensures allows_nothing { IsAnswerTo false served_diary guarded_diary
        (asks_of_event None (codes "PUT")) (refusal 405 None) → ⊥ }
{}
