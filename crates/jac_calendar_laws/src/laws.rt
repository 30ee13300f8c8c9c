ghost use Rattle.std.specs.Prelude.{ℕ, ◌<◌, ◌≤◌, ◌^◌, length};
ghost use Rattle.jac_demo.specs.Calendar.{calendar_text};
ghost use Rattle.jac_demo.specs.Requests.{demo_text};
ghost use Rattle.jac_lang.specs.Syntax.{Application};
ghost use Rattle.jac_app_load.specs.Application.{IsApplication};
ghost use Rattle.jac_calendar_laws.specs.Asking.{AreAsking};

/// A law: the calendar's text spells an application.
pub fn calendar_opens()
    ensures { (app : Application) × IsApplication calendar_text app }
{}

/// A law: each line of the generated text is a request or empty. The text for as many requests as a
/// demo may have fits into a buffer.
pub fn lines_are_requests()
    ensures asking { (count : ℕ) → count < 2 ^ 63 → AreAsking (demo_text count) }
    ensures short { (count : ℕ) → count ≤ 2000 → length (demo_text count) < 2 ^ 63 }
{}
