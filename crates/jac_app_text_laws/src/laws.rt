ghost use Rattle.std.specs.Prelude.{◌≡◌, ℕ, Bool, List, true};
ghost use Rattle.jac_demo.specs.Calendar.{calendar_text};
ghost use Rattle.jac_lang.specs.Syntax.{Application};
ghost use Rattle.jac_open_app_laws.specs.Open.{is_open_app};
ghost use Rattle.jac_open_app_laws.specs.Owned.{DependOnOwn};
ghost use Rattle.jac_app_load.specs.Application.{IsApplication};
ghost use Rattle.jac_plain.specs.Requests.{Visit, Worlds, after};
ghost use Rattle.jac_shown_rows.specs.Local.{is_local_app};
ghost use Rattle.jac_app_text_laws.specs.Eight.{eight_text};

/// A law: bytes spell at most one application.
pub fn one_application()
    ensures { (bytes : List ℕ) (app other : Application) → IsApplication bytes app →
        IsApplication bytes other → app ≡ other }
{}

/// A law: the application that the calendar's text spells is open. No group hides records, and its
/// policy reads no field that a group guards. Another law says that the text spells an application.
pub fn calendar_is_open()
    ensures { (app : Application) → IsApplication calendar_text app → is_open_app app ≡ true }
{}

/// A law: it is local too, because its policy reads only its own record.
pub fn calendar_is_local()
    ensures { (app : Application) → IsApplication calendar_text app → is_local_app app ≡ true }
{}

/// A law: after each request to it, what a record holds still depends on its own labels alone.
pub fn calendar_keeps_own()
    ensures { (app : Application) (worlds : Worlds) (visit : Visit) →
        IsApplication calendar_text app → DependOnOwn app worlds →
        DependOnOwn app (λ w. after w app (worlds w) visit) }
{}

/// A law: the text of eight groups that wait for each other spells an application.
pub fn eight_opens()
    ensures { (app : Application) × IsApplication eight_text app }
{}

/// A law: that application is local. So the cost bound for local applications applies to it,
/// although its policies wait for each other.
pub fn eight_is_local()
    ensures { (app : Application) → IsApplication eight_text app → is_local_app app ≡ true }
{}
