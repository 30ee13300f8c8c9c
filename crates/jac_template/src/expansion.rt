ghost use Rattle.std.specs.Prelude.{IfOk, IfErr, IsTrue};
ghost use Rattle.jac_lang.specs.Mirror.{statements_of};
ghost use Rattle.jac_template.specs.Expansion.{Expansion, Expands};
ghost use Rattle.jac_template.specs.Faults.{fault_in_template, refuses_template};

use crate::TemplateFault;
use crate::blocks::Blocks;
use crate::marks::read_mark;
use crate::pieces::first_cut;
use jac_lang::Stmts;
use jac_value::Txt;
use std::alloc::Global;

/// The statements of a template, or its first fault in reading order. `{{ e }}` is `(esc e)`, so
/// its value is escaped for HTML.
pub fn expand(alloc: Global, text: &Txt) -> Result<Stmts, TemplateFault>
    ensures statements { IfOk result
        (λ ss. Expands text.now (Expansion.statements (statements_of ss))) }
    ensures fault { IfErr result (λ f. IsTrue (refuses_template f)
        → Expands text.now (Expansion.fault (fault_in_template f))) }
{
    let mut blocks = Blocks::new(alloc);
    let mut left = text.as_str().as_bytes();
    let mut place: u64 = 0;
    'pieces: while !left.is_empty() {
        let cut = first_cut(left);
        let mark = read_mark(alloc, place, cut.kind, cut.content)?;
        blocks.take(alloc, place, mark)?;
        place += (left.len() - cut.rest.len()) as u64;
        left = cut.rest;
    }
    blocks.finish()
}
