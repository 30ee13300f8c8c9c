ghost use Rattle.std.specs.Prelude.{◌≡◌, [], Some, None, IfOk, IfErr, IsTrue};
ghost use Rattle.jac_forms.specs.Expressions.{expression_in_tree, question_in_tree};
ghost use Rattle.jac_forms.specs.Names.{name_of_tree};
ghost use Rattle.jac_forms.specs.Reads.{got};
ghost use Rattle.jac_lang.specs.Mirror.{expression_of, question_of};
ghost use Rattle.jac_template.specs.Faults.{Fault, IsFormless, fault_in_template, refuses_template};
ghost use Rattle.jac_template.specs.Marked.{mark_of};
ghost use Rattle.jac_template.specs.Tags.{Form, Meaning, meaning_of_form, output_of_tree, control_of_tree, control_of_trees, single_of_tree, bind_of_trees, named_bind, word_of_tree};
ghost use Rattle.jac_tree.specs.Mirror.{plain, plain_all};
ghost use Rattle.jac_tree.specs.Plain.{is_word};

use crate::TemplateFault;
use crate::marks::Mark;
use jac_forms::{FormFault, expr_of, query_of};
use jac_lang::{Expr, Query};
use jac_tree::{Tree, Trees, is_word};
use jac_value::{Txt, is_name};
use std::alloc::Global;

/// `{{ e }}` is `(esc e)`.
pub fn read_output(alloc: Global, place: u64, tree: &Tree) -> Result<Mark, TemplateFault>
    ensures mark { IfOk result (λ m. output_of_tree (plain tree.now) ≡ Form.mark (mark_of m)) }
    ensures fault { IfErr result (λ f. IsTrue (refuses_template f)
        → meaning_of_form place (output_of_tree (plain tree.now)) ≡ Meaning.fault
        (fault_in_template f)) }
{
    let e = read_expr(alloc, place, tree)?;
    Ok(Mark::Esc(e))
}

/// The mark of a tree in a tag `{% .. %}`: a statement, the opening of a block, `else` or `end`.
pub fn read_control(alloc: Global, place: u64, tree: &Tree) -> Result<Mark, TemplateFault>
    ensures mark { IfOk result (λ m. control_of_tree (plain tree.now) ≡ Form.mark (mark_of m)) }
    ensures fault { IfErr result (λ f. IsTrue (refuses_template f)
        → meaning_of_form place (control_of_tree (plain tree.now)) ≡ Meaning.fault
        (fault_in_template f)) }
{
    match tree {
        Tree::Atom(word) => {
            let mark = read_word(place, word)?;
            Ok(mark)
        }
        Tree::Text(_) => Err(TemplateFault::Stray(place)),
        Tree::List(trees) => {
            let mark = read_list(alloc, place, trees)?;
            Ok(mark)
        }
    }
}

fn read_word(place: u64, word: &Txt) -> Result<Mark, TemplateFault>
    ensures mark { IfOk result (λ m. word_of_tree word.now ≡ Form.mark (mark_of m)) }
    ensures fault { IfErr result (λ f. IsTrue (refuses_template f)
        → meaning_of_form place (word_of_tree word.now) ≡ Meaning.fault (fault_in_template f)) }
{
    let word = word.as_str();
    if word == "else" {
        Ok(Mark::Else)
    } else if word == "end" {
        Ok(Mark::End)
    } else {
        Err(TemplateFault::Stray(place))
    }
}

fn read_list(alloc: Global, place: u64, trees: &Trees) -> Result<Mark, TemplateFault>
    ensures mark { IfOk result (λ m. control_of_trees (plain_all trees.now) ≡ Form.mark
        (mark_of m)) }
    ensures fault { IfErr result (λ f. IsTrue (refuses_template f)
        → meaning_of_form place (control_of_trees (plain_all trees.now)) ≡ Meaning.fault
        (fault_in_template f)) }
{
    let Trees::More(head, rest) = trees else {
        return Err(TemplateFault::Stray(place));
    };
    let Trees::More(first, rest) = &**rest else {
        return Err(TemplateFault::Stray(place));
    };
    let Trees::More(second, rest) = &**rest else {
        let mark = read_single(alloc, place, head, first)?;
        return Ok(mark);
    };
    let Trees::End = &**rest else {
        return Err(TemplateFault::Stray(place));
    };
    let mark = read_bind(alloc, place, head, first, second)?;
    Ok(mark)
}

fn read_single(alloc: Global, place: u64, head: &Tree, tree: &Tree) -> Result<Mark, TemplateFault>
    ensures mark { IfOk result (λ m. single_of_tree (plain head.now) (plain tree.now) ≡ Form.mark
        (mark_of m)) }
    ensures fault { IfErr result (λ f. IsTrue (refuses_template f)
        → meaning_of_form place (single_of_tree (plain head.now) (plain tree.now)) ≡ Meaning.fault
        (fault_in_template f)) }
{
    if is_word(head, b"put") {
        let e = read_expr(alloc, place, tree)?;
        Ok(Mark::Put(e))
    } else if is_word(head, b"if") {
        let c = read_expr(alloc, place, tree)?;
        Ok(Mark::If(c))
    } else if is_word(head, b"for") {
        let q = read_query(alloc, place, tree)?;
        Ok(Mark::For(q))
    } else {
        Err(TemplateFault::Stray(place))
    }
}

fn read_bind(
    alloc: Global,
    place: u64,
    head: &Tree,
    name: &Tree,
    tree: &Tree,
) -> Result<Mark, TemplateFault>
    ensures mark { IfOk result (λ m. bind_of_trees (plain head.now) (plain name.now)
        (plain tree.now) ≡ Form.mark (mark_of m)) }
    ensures fault { IfErr result (λ f. IsTrue (refuses_template f)
        → meaning_of_form place (bind_of_trees (plain head.now) (plain name.now) (plain tree.now))
        ≡ Meaning.fault (fault_in_template f)) }
{
    if is_word(head, b"let") {
        let mark = read_named(alloc, place, name, tree)?;
        Ok(mark)
    } else {
        Err(TemplateFault::Stray(place))
    }
}

fn read_named(alloc: Global, place: u64, name: &Tree, tree: &Tree) -> Result<Mark, TemplateFault>
    ensures mark { IfOk result (λ m. named_bind (name_of_tree (plain name.now)) (plain tree.now)
        ≡ Form.mark (mark_of m)) }
    ensures fault { IfErr result (λ f. IsTrue (refuses_template f)
        → meaning_of_form place (named_bind (name_of_tree (plain name.now)) (plain tree.now))
        ≡ Meaning.fault (fault_in_template f)) }
{
    let name = read_name(alloc, place, name)?;
    let e = read_expr(alloc, place, tree)?;
    Ok(Mark::Let(name, e))
}

fn read_name(alloc: Global, place: u64, tree: &Tree) -> Result<Txt, TemplateFault>
    ensures value { IfOk result (λ name. name_of_tree (plain tree.now) ≡ Some name) }
    ensures none { IfErr result (λ f. IsTrue (refuses_template f) → (name_of_tree (plain tree.now)
        ≡ None)
        × (fault_in_template f ≡ Fault.stray place)) }
{
    match tree {
        Tree::Atom(word) => {
            if is_name(word.as_bytes()) {
                let name = word.copy(alloc)?;
                Ok(name)
            } else {
                Err(TemplateFault::Stray(place))
            }
        }
        Tree::Text(_) => Err(TemplateFault::Stray(place)),
        Tree::List(_) => Err(TemplateFault::Stray(place)),
    }
}

fn read_expr(alloc: Global, place: u64, tree: &Tree) -> Result<Expr, TemplateFault>
    ensures value { IfOk result (λ e. expression_in_tree [] (plain tree.now)
        ≡ got (expression_of e)) }
    ensures fault { IfErr result (λ f. IsTrue (refuses_template f)
        → IsFormless place (expression_in_tree [] (plain tree.now)) (fault_in_template f)) }
{
    match expr_of(alloc, tree) {
        Ok(e) => Ok(e),
        Err(FormFault::Memory) => Err(TemplateFault::Memory),
        Err(fault) => Err(TemplateFault::Form(place, fault)),
    }
}

fn read_query(alloc: Global, place: u64, tree: &Tree) -> Result<Query, TemplateFault>
    ensures value { IfOk result (λ q. question_in_tree 3 [] (plain tree.now)
        ≡ got (question_of q)) }
    ensures fault { IfErr result (λ f. IsTrue (refuses_template f)
        → IsFormless place (question_in_tree 3 [] (plain tree.now)) (fault_in_template f)) }
{
    match query_of(alloc, tree) {
        Ok(q) => Ok(q),
        Err(FormFault::Memory) => Err(TemplateFault::Memory),
        Err(fault) => Err(TemplateFault::Form(place, fault)),
    }
}
