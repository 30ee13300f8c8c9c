ghost use Rattle.std.specs.Prelude.{◌≡◌, is_none, IsTrue};
ghost use Rattle.jac_lang.specs.Syntax.{Application};
ghost use Rattle.jac_check.specs.Well.{is_well};
ghost use Rattle.jac_check.specs.Runnable.{HasRunnableViews};
ghost use Rattle.jac_check.specs.Applications.{first_fault};

/// A law: an application is well exactly if it has no fault.
pub fn well_without_fault()
    ensures { (app : Application) → is_well app ≡ is_none (first_fault app) }
{}

/// A law: the views of a well application may be run. No view that answers GET writes, no template
/// is left, and each record is created where `may_create` allows it.
pub fn well_is_runnable()
    ensures { (app : Application) → IsTrue (is_well app) → HasRunnableViews app }
{}
