ghost use Rattle.std.specs.Prelude.{◌≡◌, ◌∷◌, false, codes, Some, None, []};
ghost use Rattle.jac_value.specs.declared.value.Value.TheVariants as value;
ghost use Rattle.jac_lang.specs.Syntax.{Statement};
ghost use Rattle.jac_plain.specs.Requests.{location, page_of, page, after};
ghost use Rattle.jac_semantics_examples.specs.Terms.{num, word};
ghost use Rattle.jac_semantics_examples.specs.Library.{library_app, empty_library, library_state, leaves_library, names_value, visit_by_ann};

/// A page has the status 404 if a `missing` ran. If not, it has 303 if a `redirect` ran, and else
/// 200. The last redirect counts, and the view goes on after both.
pub fn settles_status()
    ensures plain { page_of (leaves_library (Statement.put (word (codes "a"))
        ∷ Statement.put (num 1) ∷ [])).pieces
        ≡ record { status = 200; location = None; body = codes "a1" } }
    ensures empty { page_of [] ≡ record { status = 200; location = None; body = [] } }
    ensures gone { page_of (leaves_library (Statement.missing
        ∷ Statement.put (word (codes "gone")) ∷ [])).pieces
        ≡ record { status = 404; location = None; body = codes "gone" } }
    ensures sent_on { page_of (leaves_library (Statement.redirect (word (codes "/a"))
        ∷ Statement.redirect (word (codes "/b c")) ∷ [])).pieces
        ≡ record { status = 303; location = Some (codes "/b%20c"); body = [] } }
    ensures goes_on { page_of (leaves_library (Statement.put (word (codes "a"))
        ∷ Statement.redirect (word (codes "/")) ∷ Statement.put (word (codes "b")) ∷ [])).pieces
        ≡ record { status = 303; location = Some (codes "/"); body = codes "ab" } }
    ensures gone_and_sent_on { page_of (leaves_library (Statement.redirect (word (codes "/a"))
        ∷ Statement.missing ∷ [])).pieces
        ≡ record { status = 404; location = None; body = [] } }
    ensures sent_on_and_gone { page_of (leaves_library (Statement.put (word (codes "a"))
        ∷ Statement.missing ∷ Statement.redirect (word (codes "/a")) ∷ [])).pieces
        ≡ record { status = 404; location = None; body = codes "a" } }
    ensures to_no_text { page_of (leaves_library (Statement.redirect (num 1) ∷ [])).pieces
        ≡ record { status = 303; location = Some []; body = [] } }
{}

/// In a location each byte that isn't visible ASCII is written as `%HH`.
pub fn writes_locations()
    ensures ends { location (32 ∷ 33 ∷ 126 ∷ 127 ∷ []) ≡ codes "%20!~%7F" }
    ensures others { location (10 ∷ 195 ∷ 169 ∷ []) ≡ codes "%0A%C3%A9" }
{}

/// A request is answered by its view, with its parameters bound, for its viewer, over what the
/// state holds.
pub fn answers_requests()
    ensures books { page (λ k. false) library_app library_state (visit_by_ann 1)
        ≡ record { status = 200; location = None; body = codes "2" } }
    ensures no_books { page (λ k. false) library_app empty_library (visit_by_ann 1)
        ≡ record { status = 200; location = None; body = codes "0" } }
    ensures gone { page (λ k. false) library_app library_state (visit_by_ann 2)
        ≡ record { status = 404; location = None; body = codes "gone" } }
    ensures parameter { page (λ k. false) library_app library_state (record {
      view = 3;
      env = names_value (codes "w") (value.Text (codes "hi ")) ∷ [];
      viewer = Some 4096;
    }) ≡ record { status = 200; location = None; body = codes "hi 4096" } }
    ensures nobody { page (λ k. false) library_app library_state (record {
      view = 3;
      env = names_value (codes "w") (value.Text (codes "hi ")) ∷ [];
      viewer = None;
    }) ≡ record { status = 200; location = None; body = codes "hi " } }
    ensures no_view { page (λ k. false) library_app library_state (visit_by_ann 4)
        ≡ record { status = 200; location = None; body = [] } }
{}

/// The first request has the number 1. `/fill` leaves the library, whose ids are worked out by
/// hand, and the next number. A `GET` leaves the state unchanged.
pub fn leaves_states()
    ensures filled { after (λ k. false) library_app empty_library (visit_by_ann 0)
        ≡ library_state }
    ensures read { after (λ k. false) library_app library_state (visit_by_ann 1)
        ≡ library_state }
    ensures no_view { after (λ k. false) library_app library_state (visit_by_ann 4)
        ≡ library_state }
{}
