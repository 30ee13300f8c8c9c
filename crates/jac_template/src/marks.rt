ghost use Rattle.std.specs.Prelude.{◌≡◌, true, IsUtf8, IfOk, IfErr, IsTrue};
ghost use Rattle.jac_template.specs.Faults.{Fault, fault_in_template, refuses_template};
ghost use Rattle.jac_template.specs.Marked.{HasText, IsContentFault, is_of_bytes, mark_of};
ghost use Rattle.jac_template.specs.Tags.{Meaning, MeansAs};
ghost use Rattle.jac_tree.specs.Grammar.{Accepted};
ghost use Rattle.jac_tree.specs.Mirror.{plain};

use crate::TemplateFault;
use crate::controls::{read_control, read_output};
use crate::pieces::Kind;
use jac_lang::{Expr, Query};
use jac_tree::{Tree, TreeFault, read_tree};
use jac_value::{Memory, Txt};
use std::alloc::Global;
use std::str::from_utf8;

/// A piece without a fault: a single statement, the opening of a block, `else`, or `end`.
#[derive(Drop)]
pub enum Mark {
    Put(Expr),
    Esc(Expr),
    Let(Txt, Expr),
    If(Expr),
    For(Query),
    Else,
    End,
}

pub fn read_mark(
    alloc: Global,
    place: u64,
    kind: Kind,
    content: &[u8],
) -> Result<Mark, TemplateFault>
    requires text { HasText kind content.now }
    ensures mark { IfOk result (λ m. MeansAs kind place content.now (Meaning.mark (mark_of m))) }
    ensures fault { IfErr result (λ f. IsTrue (refuses_template f)
        → MeansAs kind place content.now (Meaning.fault (fault_in_template f))) }
{
    match kind {
        Kind::Literal => {
            let mark = literal(alloc, content)?;
            Ok(mark)
        }
        Kind::Output => {
            let tree = read_content(alloc, place, content)?;
            let mark = read_output(alloc, place, &tree)?;
            Ok(mark)
        }
        Kind::Control => {
            let tree = read_content(alloc, place, content)?;
            let mark = read_control(alloc, place, &tree)?;
            Ok(mark)
        }
        Kind::Endless => Err(TemplateFault::Unclosed(place)),
    }
}

fn literal(alloc: Global, content: &[u8]) -> Result<Mark, Memory>
    requires text { IsUtf8 content.now }
    ensures { IfOk result (λ m. MeansAs Kind.Literal 0 content.now (Meaning.mark (mark_of m))) }
{
    let text = from_utf8(content).unwrap();
    let text = Txt::from_str(alloc, text)?;
    Ok(Mark::Put(Expr::Text(text)))
}

fn read_content(alloc: Global, place: u64, content: &[u8]) -> Result<Tree, TemplateFault>
    ensures tree { IfOk result (λ t. Accepted content.now (plain t)) }
    ensures fault { IfErr result (λ f. IsTrue (refuses_template f)
        → IsContentFault place content.now
        (fault_in_template f)) }
{
    match read_tree(alloc, content) {
        Ok(tree) => Ok(tree),
        Err(fault) => Err(content_fault(place, fault)),
    }
}

fn content_fault(place: u64, fault: TreeFault) -> TemplateFault
    ensures { IsTrue (refuses_template result) → (is_of_bytes fault ≡ true)
        × (fault_in_template result ≡ Fault.tree place fault) }
{
    match fault {
        TreeFault::Memory => TemplateFault::Memory,
        _ => TemplateFault::Tree(place, fault),
    }
}
