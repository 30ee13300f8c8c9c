ghost use Rattle.std.specs.Prelude.{◌≡◌, ◌≤◌, length, true, IsTrue};
ghost use Rattle.std.specs.List.{All};
ghost use Rattle.jac_tree.specs.Printed.{printed_tree};
ghost use Rattle.jac_lang.specs.Syntax.{Application};
ghost use Rattle.jac_lang.specs.Written.{IsWrittenModel};
ghost use Rattle.jac_plain.specs.Models.{shapes_of};
ghost use Rattle.jac_keep.specs.Schema.{IsSchema};
ghost use Rattle.jac_check.specs.Schema.{schema_tree};
ghost use Rattle.jac_check.specs.Well.{is_well};
ghost use Rattle.jac_app_load.specs.Served.{IsSited, are_served};

/// A law: a well application whose sites are their places in the text is served.
pub fn well_is_served()
    ensures { (app : Application) → All IsSited app.views → IsTrue (is_well app)
        → are_served app ≡ true }
{}

/// A law: if the models of a well application were read, its schema text has the shapes of its
/// models.
pub fn schema_of_well()
    ensures { (app : Application) → IsTrue (is_well app) → length app.models ≤ 64
        → All IsWrittenModel app.models → IsSchema (printed_tree (schema_tree app.models))
        (shapes_of app) }
{}
