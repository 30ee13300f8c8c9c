ghost use Rattle.std.specs.Prelude.{◌≡◌, ◌⊎◌, ℕ, List, IsTrue};
ghost use Rattle.jac_lang.specs.Syntax.{Statements, Page, Application};
ghost use Rattle.jac_lang.specs.Written.{sites};
ghost use Rattle.jac_template.specs.Applications.{Expanded, ExpandsApplication, ExpandsView};
ghost use Rattle.jac_template.specs.Expansion.{Expansion, Expands};
ghost use Rattle.jac_template.specs.Faults.{fault_in_template, refuses_template};
ghost use Rattle.jac_template.specs.declared.fault.TemplateFault.{TemplateFault};

/// Laws: the expansion of a text is unique, and so is that of an application.
pub fn expands_to_one()
    ensures text { (text : List ℕ) (x : Expansion) (y : Expansion) → Expands text x → Expands text y
        → x ≡ y }
    ensures application { (a : Application) (x : Expanded) (y : Expanded) → ExpandsApplication a x
        → ExpandsApplication a y → x ≡ y }
{}

/// A law: the sites of a view's `create` statements are the same after its expansion, because a
/// template creates nothing.
pub fn expansion_keeps_sites()
    ensures { (v : Page) (out : Page) → ExpandsView v out → sites out.body ≡ sites v.body }
{}

/// A law: each text is a template of some statements, or has a fault other than out of memory.
/// `expand` may run out of memory for any text. Without this law, there could be texts for which
/// its contract allows no other result.
pub fn each_text_expands()
    ensures { (text : List ℕ) → ((ss : Statements) × Expands text (Expansion.statements ss))
        ⊎ ((fault : TemplateFault) × IsTrue (refuses_template fault)
        × Expands text (Expansion.fault (fault_in_template fault))) }
{}
