ghost use Rattle.std.specs.Prelude.{◌≡◌, ◌↔◌, ℕ, false, true, List, Some, None, is_some};
ghost use Rattle.std.specs.List.{list_all};
ghost use Rattle.jac_world.specs.World.{shown_by};
ghost use Rattle.jac_plain.specs.Policies.{with_label, AreAllowed, IsLiveLabel, IsSettled, ShowsForbidden};
ghost use Rattle.jac_why.specs.declared.reasons.Reason.{Reason as Told};
ghost use Rattle.jac_why.specs.Context.{PlainContext};
ghost use Rattle.jac_why.specs.Whys.{beside, why_hidden, stands_against, is_standing, all_whys, AreExplained};

/// A law: if there is a reason for each live label that isn't shown, none of them can be added.
pub fn explained_is_full()
    ensures { (context : PlainContext) → AreExplained context
        → (k : ℕ) → IsLiveLabel context.app context.worlds k → shown_by context.labels k ≡ false
        → ShowsForbidden context.app context.worlds context.viewer (with_label k
        (shown_by context.labels)) }
{}

/// A law: if labels are settled, there is a reason for each other live label.
pub fn settled_is_explained()
    ensures { (context : PlainContext) → IsSettled context.app context.worlds context.viewer
        context.labels
        → (k : ℕ) → IsLiveLabel context.app context.worlds k → shown_by context.labels k ≡ false
        → is_some (why_hidden context k) ≡ true }
{}

/// A law: the reason that is found keeps the label hidden.
pub fn why_stands()
    ensures { (context : PlainContext) (k : ℕ) (reason : Told)
        → why_hidden context k ≡ Some reason → stands_against context k reason ≡ true }
{}

/// A law: each reason that is found for a list of labels keeps its label hidden.
pub fn whys_stand()
    ensures { (context : PlainContext) (live : List ℕ)
        → list_all (is_standing context) (all_whys context live) ≡ true }
{}

/// A law: nothing keeps a label hidden if and only if all labels are allowed once it is shown.
pub fn none_where_allowed()
    ensures { (context : PlainContext) (k : ℕ)
        → (why_hidden context k ≡ None
        ↔ AreAllowed context.app context.worlds context.viewer (beside context k)) }
{}
