ghost use Rattle.std.specs.Prelude.{◌≡◌, IfOk, codes};
ghost use Rattle.jac_lang.specs.Mirror.{assigned_of, expression_of, question_of, statement_of, statements_of};
ghost use Rattle.jac_tree.specs.Mirror.{plain, plain_all};
ghost use Rattle.jac_tree.specs.Plain.{PlainTree, PlainTrees};
ghost use Rattle.jac_unparse.specs.TreeOf.{form, one, three, tree_of_expression, tree_of_question, tree_of_set, tree_of_statement, trees_of_assigned, trees_of_statements, two_trees};

use crate::expressions::{expr_tree, query_tree};
use crate::shapes::{
    form, form_of_one, form_of_three, form_of_two, more, name_tree, pair, text_tree,
};
use jac_lang::{Expr, Publics, Query, Stmt, Stmts};
use jac_tree::{Tree, Trees};
use jac_value::{Memory, Txt};
use std::alloc::Global;

/// The trees of a body.
#[cycle(write)]
pub fn stmt_trees(alloc: Global, body: &Stmts) -> Result<Trees, Memory>
    ensures { IfOk result (λ ts. plain_all ts ≡ trees_of_statements (statements_of body.now)) }
{
    let mut back = Trees::End;
    let mut left = body;
    'statements: while let Stmts::More(first, rest) = left {
        let tree = stmt_tree(alloc, first)?;
        back = more(alloc, tree, back)?;
        left = rest;
    }
    Ok(back.before(Trees::End))
}

#[cycle(write)]
fn stmt_tree(alloc: Global, statement: &Stmt) -> Result<Tree, Memory>
    ensures { IfOk result (λ t. plain t ≡ tree_of_statement (statement_of statement.now)) }
{
    match statement {
        Stmt::Put(text) => one_operand(alloc, "put", text),
        Stmt::Esc(text) => one_operand(alloc, "esc", text),
        Stmt::Let(name, value, body) => let_tree(alloc, name, value, body),
        Stmt::Assign(name, value) => name_and_operand(alloc, "assign", name, value),
        Stmt::If(cond, then, other) => if_tree(alloc, cond, then, other),
        Stmt::For(query, body) => for_tree(alloc, query, body),
        Stmt::Create {
            name,
            model,
            cells,
            body,
            ..
        } => create_tree(alloc, name, model, cells, body),
        Stmt::Update(model, target, cells) => update_tree(alloc, model, target, cells),
        Stmt::Delete(model, target) => name_and_operand(alloc, "delete", model, target),
        Stmt::Missing => form(alloc, "missing", Trees::End),
        Stmt::Redirect(path) => one_operand(alloc, "redirect", path),
        Stmt::Template(text) => template_tree(alloc, text),
        Stmt::Block(body) => block_tree(alloc, body),
    }
}

#[cycle(write)]
fn let_tree(alloc: Global, name: &Txt, value: &Expr, body: &Stmts) -> Result<Tree, Memory>
    ensures { IfOk result (λ t. plain t ≡ form (codes "let")
        (PlainTrees.more (PlainTree.atom name.now)
        (PlainTrees.more (tree_of_expression (expression_of value.now))
        (trees_of_statements (statements_of body.now))))) }
{
    let name = name_tree(alloc, name)?;
    let value = expr_tree(alloc, value)?;
    let body = stmt_trees(alloc, body)?;
    let rest = more(alloc, value, body)?;
    let rest = more(alloc, name, rest)?;
    form(alloc, "let", rest)
}

#[cycle(write)]
fn if_tree(alloc: Global, cond: &Expr, then: &Stmts, other: &Stmts) -> Result<Tree, Memory>
    ensures { IfOk result (λ t. plain t ≡ form (codes "if")
        (three (tree_of_expression (expression_of cond.now))
        (PlainTree.list (trees_of_statements (statements_of then.now)))
        (PlainTree.list (trees_of_statements (statements_of other.now))))) }
{
    let cond = expr_tree(alloc, cond)?;
    let then = stmt_trees(alloc, then)?;
    let other = stmt_trees(alloc, other)?;
    form_of_three(alloc, "if", cond, Tree::List(then), Tree::List(other))
}

#[cycle(write)]
fn for_tree(alloc: Global, query: &Query, body: &Stmts) -> Result<Tree, Memory>
    ensures { IfOk result (λ t. plain t ≡ form (codes "for")
        (PlainTrees.more (tree_of_question (question_of query.now))
        (trees_of_statements (statements_of body.now)))) }
{
    let query = query_tree(alloc, query)?;
    let body = stmt_trees(alloc, body)?;
    let rest = more(alloc, query, body)?;
    form(alloc, "for", rest)
}

// The site of a `create` is its place, so it isn't written.
#[cycle(write)]
fn create_tree(
    alloc: Global,
    name: &Txt,
    model: &Txt,
    cells: &Publics,
    body: &Stmts,
) -> Result<Tree, Memory>
    ensures { IfOk result (λ t. plain t ≡ form (codes "create")
        (PlainTrees.more (PlainTree.atom name.now) (PlainTrees.more (PlainTree.atom model.now)
        (PlainTrees.more (tree_of_set (assigned_of cells.now))
        (trees_of_statements (statements_of body.now)))))) }
{
    let name = name_tree(alloc, name)?;
    let model = name_tree(alloc, model)?;
    let set = set_tree(alloc, cells)?;
    let body = stmt_trees(alloc, body)?;
    let rest = more(alloc, set, body)?;
    let rest = more(alloc, model, rest)?;
    let rest = more(alloc, name, rest)?;
    form(alloc, "create", rest)
}

#[cycle(write)]
fn block_tree(alloc: Global, body: &Stmts) -> Result<Tree, Memory>
    ensures { IfOk result (λ t. plain t ≡ form (codes "block")
        (trees_of_statements (statements_of body.now))) }
{
    let body = stmt_trees(alloc, body)?;
    form(alloc, "block", body)
}

fn update_tree(alloc: Global, model: &Txt, target: &Expr, cells: &Publics) -> Result<Tree, Memory>
    ensures { IfOk result (λ t. plain t ≡ form (codes "update") (three (PlainTree.atom model.now)
        (tree_of_expression (expression_of target.now)) (tree_of_set (assigned_of cells.now)))) }
{
    let model = name_tree(alloc, model)?;
    let target = expr_tree(alloc, target)?;
    let set = set_tree(alloc, cells)?;
    form_of_three(alloc, "update", model, target, set)
}

fn template_tree(alloc: Global, text: &Txt) -> Result<Tree, Memory>
    ensures { IfOk result (λ t. plain t ≡ form (codes "template") (one (PlainTree.text text.now))) }
{
    let text = text_tree(alloc, text)?;
    form_of_one(alloc, "template", text)
}

fn one_operand(alloc: Global, word: &str, operand: &Expr) -> Result<Tree, Memory>
    ensures { IfOk result (λ t. plain t ≡ form word.now
        (one (tree_of_expression (expression_of operand.now)))) }
{
    let operand = expr_tree(alloc, operand)?;
    form_of_one(alloc, word, operand)
}

fn name_and_operand(alloc: Global, word: &str, name: &Txt, operand: &Expr) -> Result<Tree, Memory>
    ensures { IfOk result (λ t. plain t ≡ form word.now (two_trees (PlainTree.atom name.now)
        (tree_of_expression (expression_of operand.now)))) }
{
    let name = name_tree(alloc, name)?;
    let operand = expr_tree(alloc, operand)?;
    form_of_two(alloc, word, name, operand)
}

fn set_tree(alloc: Global, cells: &Publics) -> Result<Tree, Memory>
    ensures { IfOk result (λ t. plain t ≡ tree_of_set (assigned_of cells.now)) }
{
    let trees = assigned_trees(alloc, cells)?;
    form(alloc, "set", trees)
}

/// A tree `(NAME expression)` for each field.
pub fn assigned_trees(alloc: Global, cells: &Publics) -> Result<Trees, Memory>
    ensures { IfOk result (λ ts. plain_all ts ≡ trees_of_assigned (assigned_of cells.now)) }
{
    let mut back = Trees::End;
    let mut left = cells;
    'cells: while let Publics::More(first, rest) = left {
        let value = expr_tree(alloc, &first.value)?;
        let tree = pair(alloc, &first.field, value)?;
        back = more(alloc, tree, back)?;
        left = rest;
    }
    Ok(back.before(Trees::End))
}
