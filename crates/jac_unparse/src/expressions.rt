ghost use Rattle.std.specs.Prelude.{◌≡◌, IfOk, codes};
ghost use Rattle.jac_lang.specs.Mirror.{binders_of, expression_of, expressions_of, question_of};
ghost use Rattle.jac_tree.specs.Mirror.{plain, plain_all};
ghost use Rattle.jac_tree.specs.Plain.{PlainTree};
ghost use Rattle.jac_unparse.specs.TreeOf.{form, one, op_word, three, tree_of_expression, tree_of_order, tree_of_question, trees_of_binders, trees_of_expressions, truth_word, two_trees};

use crate::shapes::{
    form, form_of_one, form_of_three, form_of_two, more, name_tree, number_tree, pair, text_tree,
    word_tree,
};
use jac_lang::{Binders, Expr, Exprs, Op, Order, Query};
use jac_tree::{Tree, Trees};
use jac_value::{Memory, Txt};
use std::alloc::Global;

/// The tree of an expression.
#[cycle(write)]
pub fn expr_tree(alloc: Global, expr: &Expr) -> Result<Tree, Memory>
    ensures { IfOk result (λ t. plain t ≡ tree_of_expression (expression_of expr.now)) }
{
    match expr {
        Expr::Int(number) => number_tree(alloc, *number),
        Expr::Text(text) => text_tree(alloc, text),
        Expr::Bool(truth) => word_tree(alloc, truth_word(*truth)),
        Expr::NoneOf(model) => none_tree(alloc, model),
        Expr::Name(name) => name_tree(alloc, name),
        Expr::This => word_tree(alloc, "this"),
        Expr::Viewer => word_tree(alloc, "viewer"),
        Expr::Get(model, field, reference) => get_tree(alloc, model, field, reference),
        Expr::Live(reference) => one_operand(alloc, "live", reference),
        Expr::Two(op, first, second) => two_operands(alloc, op_word(*op), first, second),
        Expr::Not(truth) => one_operand(alloc, "not", truth),
        Expr::Cat(parts) => cat_tree(alloc, parts),
        Expr::Str(number) => one_operand(alloc, "str", number),
        Expr::Pick(cond, then, other) => pick_tree(alloc, cond, then, other),
        Expr::Count(query) => one_query(alloc, "count", query),
        Expr::Sum(query, each) => sum_tree(alloc, query, each),
        Expr::AnyOf(query) => one_query(alloc, "some", query),
        Expr::First(query) => one_query(alloc, "first", query),
    }
}

/// The tree of a query.
#[cycle(write)]
pub fn query_tree(alloc: Global, query: &Query) -> Result<Tree, Memory>
    ensures { IfOk result (λ t. plain t ≡ tree_of_question (question_of query.now)) }
{
    let binders = binder_trees(alloc, &query.binders)?;
    let cond = expr_tree(alloc, &query.cond)?;
    let order = order_tree(alloc, &query.order)?;
    form_of_three(alloc, "from", Tree::List(binders), cond, order)
}

#[cycle(write)]
fn one_operand(alloc: Global, word: &str, operand: &Expr) -> Result<Tree, Memory>
    ensures { IfOk result (λ t. plain t ≡ form word.now
        (one (tree_of_expression (expression_of operand.now)))) }
{
    let operand = expr_tree(alloc, operand)?;
    form_of_one(alloc, word, operand)
}

#[cycle(write)]
fn two_operands(alloc: Global, word: &str, first: &Expr, second: &Expr) -> Result<Tree, Memory>
    ensures { IfOk result (λ t. plain t ≡ form word.now
        (two_trees (tree_of_expression (expression_of first.now))
        (tree_of_expression (expression_of second.now)))) }
{
    let first = expr_tree(alloc, first)?;
    let second = expr_tree(alloc, second)?;
    form_of_two(alloc, word, first, second)
}

#[cycle(write)]
fn get_tree(alloc: Global, model: &Txt, field: &Txt, reference: &Expr) -> Result<Tree, Memory>
    ensures { IfOk result (λ t. plain t ≡ form (codes "get") (three (PlainTree.atom model.now)
        (PlainTree.atom field.now) (tree_of_expression (expression_of reference.now)))) }
{
    let model = name_tree(alloc, model)?;
    let field = name_tree(alloc, field)?;
    let reference = expr_tree(alloc, reference)?;
    form_of_three(alloc, "get", model, field, reference)
}

#[cycle(write)]
fn pick_tree(alloc: Global, cond: &Expr, then: &Expr, other: &Expr) -> Result<Tree, Memory>
    ensures { IfOk result (λ t. plain t ≡ form (codes "pick")
        (three (tree_of_expression (expression_of cond.now))
        (tree_of_expression (expression_of then.now))
        (tree_of_expression (expression_of other.now)))) }
{
    let cond = expr_tree(alloc, cond)?;
    let then = expr_tree(alloc, then)?;
    let other = expr_tree(alloc, other)?;
    form_of_three(alloc, "pick", cond, then, other)
}

#[cycle(write)]
fn cat_tree(alloc: Global, parts: &Exprs) -> Result<Tree, Memory>
    ensures { IfOk result (λ t. plain t ≡ form (codes "cat")
        (trees_of_expressions (expressions_of parts.now))) }
{
    let trees = part_trees(alloc, parts)?;
    form(alloc, "cat", trees)
}

#[cycle(write)]
fn part_trees(alloc: Global, parts: &Exprs) -> Result<Trees, Memory>
    ensures { IfOk result (λ ts. plain_all ts ≡ trees_of_expressions (expressions_of parts.now)) }
{
    let mut back = Trees::End;
    let mut left = parts;
    'parts: while let Exprs::More(first, rest) = left {
        let tree = expr_tree(alloc, first)?;
        back = more(alloc, tree, back)?;
        left = rest;
    }
    Ok(back.before(Trees::End))
}

#[cycle(write)]
fn one_query(alloc: Global, word: &str, query: &Query) -> Result<Tree, Memory>
    ensures { IfOk result (λ t. plain t ≡ form word.now
        (one (tree_of_question (question_of query.now)))) }
{
    let query = query_tree(alloc, query)?;
    form_of_one(alloc, word, query)
}

#[cycle(write)]
fn sum_tree(alloc: Global, query: &Query, each: &Expr) -> Result<Tree, Memory>
    ensures { IfOk result (λ t. plain t ≡ form (codes "sum")
        (two_trees (tree_of_question (question_of query.now))
        (tree_of_expression (expression_of each.now)))) }
{
    let query = query_tree(alloc, query)?;
    let each = expr_tree(alloc, each)?;
    form_of_two(alloc, "sum", query, each)
}

fn none_tree(alloc: Global, model: &Txt) -> Result<Tree, Memory>
    ensures { IfOk result (λ t. plain t ≡ form (codes "none") (one (PlainTree.atom model.now))) }
{
    let model = name_tree(alloc, model)?;
    form_of_one(alloc, "none", model)
}

fn binder_trees(alloc: Global, binders: &Binders) -> Result<Trees, Memory>
    ensures { IfOk result (λ ts. plain_all ts ≡ trees_of_binders (binders_of binders.now)) }
{
    let mut back = Trees::End;
    let mut left = binders;
    'binders: while let Binders::More(first, rest) = left {
        let model = name_tree(alloc, &first.model)?;
        let tree = pair(alloc, &first.name, model)?;
        back = more(alloc, tree, back)?;
        left = rest;
    }
    Ok(back.before(Trees::End))
}

fn order_tree(alloc: Global, order: &Order) -> Result<Tree, Memory>
    ensures { IfOk result (λ t. plain t ≡ tree_of_order order.now) }
{
    match order {
        Order::Key => word_tree(alloc, "key"),
        Order::Up(binder, field) => sorted_tree(alloc, "up", binder, field),
        Order::Down(binder, field) => sorted_tree(alloc, "down", binder, field),
    }
}

fn sorted_tree(alloc: Global, word: &str, binder: &Txt, field: &Txt) -> Result<Tree, Memory>
    ensures { IfOk result (λ t. plain t ≡ form word.now (two_trees (PlainTree.atom binder.now)
        (PlainTree.atom field.now))) }
{
    let binder = name_tree(alloc, binder)?;
    let field = name_tree(alloc, field)?;
    form_of_two(alloc, word, binder, field)
}

fn truth_word(truth: bool) -> &'static str
    ensures { result.now ≡ truth_word truth }
{
    if truth { "true" } else { "false" }
}

fn op_word(op: Op) -> &'static str
    ensures { result.now ≡ op_word op }
{
    match op {
        Op::Add => "add",
        Op::Sub => "sub",
        Op::Mul => "mul",
        Op::Eq => "eq",
        Op::Lt => "lt",
        Op::And => "and",
        Op::Or => "or",
    }
}
