ghost use Rattle.std.specs.Prelude.{◌≡◌, [], Some, None, IfOk, IfErr, IsTrue};
ghost use Rattle.jac_lang.specs.Mirror.{expression_of, expressions_of, question_of};
ghost use Rattle.jac_lang.specs.Syntax.{Expression};
ghost use Rattle.jac_tree.specs.Mirror.{plain, plain_all};
ghost use Rattle.jac_value.specs.Values.{integer_of};
ghost use Rattle.jac_forms.specs.declared.fault.Want.TheVariants as wants;
ghost use Rattle.jac_forms.specs.Expressions.{atom_expression, expression_in_list, expression_in_tree, expression_of_form, expression_of_tree, expressions_in_trees, get_in_trees, most_binders, none_in_trees, number_or_name, one_in_trees, operands_of, pick_in_trees, query_in_trees, question_in_tree, question_of_tree, sum_in_trees, two_in_trees};
ghost use Rattle.jac_forms.specs.Places.{path_of};
ghost use Rattle.jac_forms.specs.Reads.{got, refused};
ghost use Rattle.jac_forms.specs.Refusal.{refuses};

use crate::names::{next_number, read_name};
use crate::place::Place;
use crate::queries::{Most, has_few, read_binders, read_order};
use crate::words::{Form, form_of};
use crate::{FormFault, Want};
use jac_lang::{Expr, Exprs, Op, Query};
use jac_tree::{Tree, Trees, is_word};
use jac_value::{Txt, integer_of, is_name};
use std::alloc::Global;

/// The expression that a tree represents, or the tree's first fault. A list of 2^32 trees or more
/// gives `FormFault::Memory`.
pub fn expr_of(alloc: Global, tree: &Tree) -> Result<Expr, FormFault>
    ensures value { IfOk result (λ e. expression_of_tree (plain tree.now)
        ≡ Some (expression_of e)) }
    ensures none { IfErr result (λ f. IsTrue (refuses f) → expression_of_tree (plain tree.now)
        ≡ None) }
    ensures fault { IfErr result (λ f. IsTrue (refuses f) → expression_in_tree [] (plain tree.now)
        ≡ refused f) }
{
    let e = read_expr(alloc, &Place::Top, tree)?;
    Ok(e)
}

/// The query of one to three binders that a tree represents, or the tree's first fault. A list of
/// 2^32 trees or more gives `FormFault::Memory`.
pub fn query_of(alloc: Global, tree: &Tree) -> Result<Query, FormFault>
    ensures value { IfOk result (λ q. question_of_tree 3 (plain tree.now) ≡ Some (question_of q)) }
    ensures none { IfErr result (λ f. IsTrue (refuses f) → question_of_tree 3 (plain tree.now)
        ≡ None) }
    ensures fault { IfErr result (λ f. IsTrue (refuses f) → question_in_tree 3 [] (plain tree.now)
        ≡ refused f) }
{
    let q = read_query(alloc, &Place::Top, Most::Three, tree)?;
    Ok(q)
}

/// Reads the only expression after the head of a list. Anything else is a fault with `want`.
pub fn read_only(
    alloc: Global,
    place: &Place<'_>,
    want: Want,
    trees: &Trees,
) -> Result<Expr, FormFault>
    ensures value { IfOk result (λ e. one_in_trees want (path_of place.now) (plain_all trees.now)
        ≡ got (expression_of e)) }
    ensures fault { IfErr result (λ f. IsTrue (refuses f) → one_in_trees want (path_of place.now)
        (plain_all trees.now) ≡ refused f) }
{
    let Trees::More(only, rest) = trees else {
        return Err(place.form(alloc, want));
    };
    let Trees::End = &**rest else {
        return Err(place.form(alloc, want));
    };
    let e = read_expr(alloc, &place.child(1), only)?;
    Ok(e)
}

#[cycle(read)]
pub fn read_expr(alloc: Global, place: &Place<'_>, tree: &Tree) -> Result<Expr, FormFault>
    ensures value { IfOk result (λ e. expression_in_tree (path_of place.now) (plain tree.now)
        ≡ got (expression_of e)) }
    ensures fault { IfErr result (λ f. IsTrue (refuses f) → expression_in_tree (path_of place.now)
        (plain tree.now) ≡ refused f) }
{
    match tree {
        Tree::Atom(word) => {
            let e = read_atom(alloc, place, word)?;
            Ok(e)
        }
        Tree::Text(text) => {
            let text = text.copy(alloc)?;
            Ok(Expr::Text(text))
        }
        Tree::List(trees) => {
            let e = read_list(alloc, place, trees)?;
            Ok(e)
        }
    }
}

// Reads a list, which begins with the word of its form.
#[cycle(read)]
fn read_list(alloc: Global, place: &Place<'_>, trees: &Trees) -> Result<Expr, FormFault>
    ensures value { IfOk result (λ e. expression_in_list (path_of place.now) (plain_all trees.now)
        ≡ got (expression_of e)) }
    ensures fault { IfErr result (λ f. IsTrue (refuses f) → expression_in_list (path_of place.now)
        (plain_all trees.now) ≡ refused f) }
{
    let Trees::More(head, operands) = trees else {
        return Err(place.form(alloc, Want::Expression));
    };
    match form_of(head) {
        Some(form) => {
            let e = read_form(alloc, place, form, operands)?;
            Ok(e)
        }
        None => Err(place.form(alloc, Want::Expression)),
    }
}

fn read_atom(alloc: Global, place: &Place<'_>, word: &Txt) -> Result<Expr, FormFault>
    ensures value { IfOk result (λ e. atom_expression (path_of place.now) word.now
        ≡ got (expression_of e)) }
    ensures fault { IfErr result (λ f. IsTrue (refuses f) → atom_expression (path_of place.now)
        word.now ≡ refused f) }
{
    let text = word.as_str();
    if text == "true" {
        Ok(Expr::Bool(true))
    } else if text == "false" {
        Ok(Expr::Bool(false))
    } else if text == "this" {
        Ok(Expr::This)
    } else if text == "viewer" {
        Ok(Expr::Viewer)
    } else {
        let e = read_number_or_name(alloc, place, word)?;
        Ok(e)
    }
}

fn read_number_or_name(alloc: Global, place: &Place<'_>, word: &Txt) -> Result<Expr, FormFault>
    ensures value { IfOk result (λ e. number_or_name (path_of place.now) word.now
        (integer_of word.now) ≡ got (expression_of e)) }
    ensures fault { IfErr result (λ f. IsTrue (refuses f) → number_or_name (path_of place.now)
        word.now (integer_of word.now) ≡ refused f) }
{
    match integer_of(word) {
        Some(number) => Ok(Expr::Int(number)),
        None => {
            if is_name(word.as_bytes()) {
                let name = word.copy(alloc)?;
                Ok(Expr::Name(name))
            } else {
                Err(place.form(alloc, Want::Expression))
            }
        }
    }
}

#[cycle(read)]
fn read_form(
    alloc: Global,
    place: &Place<'_>,
    form: Form,
    operands: &Trees,
) -> Result<Expr, FormFault>
    ensures value { IfOk result (λ e. expression_of_form (path_of place.now) (Some form)
        (operands_of (path_of place.now) (plain_all operands.now)) ≡ got (expression_of e)) }
    ensures fault { IfErr result (λ f. IsTrue (refuses f) → expression_of_form (path_of place.now)
        (Some form) (operands_of (path_of place.now) (plain_all operands.now)) ≡ refused f) }
{
    match form {
        Form::NoneOf => {
            let e = read_none(alloc, place, operands)?;
            Ok(e)
        }
        Form::Get => {
            let e = read_get(alloc, place, operands)?;
            Ok(e)
        }
        Form::Live => {
            let e = Box::new(alloc, read_one(alloc, place, operands)?)?;
            Ok(Expr::Live(e))
        }
        Form::Two(op) => {
            let e = read_two(alloc, place, op, operands)?;
            Ok(e)
        }
        Form::Not => {
            let e = Box::new(alloc, read_one(alloc, place, operands)?)?;
            Ok(Expr::Not(e))
        }
        Form::Cat => {
            let parts = read_parts(alloc, place, operands)?;
            Ok(Expr::Cat(parts))
        }
        Form::Str => {
            let e = Box::new(alloc, read_one(alloc, place, operands)?)?;
            Ok(Expr::Str(e))
        }
        Form::Pick => {
            let e = read_pick(alloc, place, operands)?;
            Ok(e)
        }
        Form::Count => {
            let q = Box::new(alloc, read_asked(alloc, place, Most::One, operands)?)?;
            Ok(Expr::Count(q))
        }
        Form::Sum => {
            let e = read_sum(alloc, place, operands)?;
            Ok(e)
        }
        Form::AnyOf => {
            let q = Box::new(alloc, read_asked(alloc, place, Most::Three, operands)?)?;
            Ok(Expr::AnyOf(q))
        }
        Form::First => {
            let q = Box::new(alloc, read_asked(alloc, place, Most::Three, operands)?)?;
            Ok(Expr::First(q))
        }
    }
}

fn read_none(alloc: Global, place: &Place<'_>, operands: &Trees) -> Result<Expr, FormFault>
    ensures value { IfOk result (λ e. none_in_trees (path_of place.now) (plain_all operands.now)
        ≡ got (expression_of e)) }
    ensures fault { IfErr result (λ f. IsTrue (refuses f) → none_in_trees (path_of place.now)
        (plain_all operands.now) ≡ refused f) }
{
    let Trees::More(model, rest) = operands else {
        return Err(place.form(alloc, Want::Expression));
    };
    let Trees::End = &**rest else {
        return Err(place.form(alloc, Want::Expression));
    };
    let model = read_name(alloc, &place.child(1), model)?;
    Ok(Expr::NoneOf(model))
}

#[cycle(read)]
fn read_one(alloc: Global, place: &Place<'_>, operands: &Trees) -> Result<Expr, FormFault>
    ensures value { IfOk result (λ e. one_in_trees wants.Expression (path_of place.now)
        (plain_all operands.now) ≡ got (expression_of e)) }
    ensures fault { IfErr result (λ f. IsTrue (refuses f)
        → one_in_trees wants.Expression (path_of place.now) (plain_all operands.now) ≡ refused f) }
{
    let Trees::More(only, rest) = operands else {
        return Err(place.form(alloc, Want::Expression));
    };
    let Trees::End = &**rest else {
        return Err(place.form(alloc, Want::Expression));
    };
    let e = read_expr(alloc, &place.child(1), only)?;
    Ok(e)
}

#[cycle(read)]
fn read_two(alloc: Global, place: &Place<'_>, op: Op, operands: &Trees) -> Result<Expr, FormFault>
    ensures value { IfOk result (λ e. two_in_trees (path_of place.now) (plain_all operands.now) op
        ≡ got (expression_of e)) }
    ensures fault { IfErr result (λ f. IsTrue (refuses f) → two_in_trees (path_of place.now)
        (plain_all operands.now) op ≡ refused f) }
{
    let Trees::More(left, rest) = operands else {
        return Err(place.form(alloc, Want::Expression));
    };
    let Trees::More(right, rest) = &**rest else {
        return Err(place.form(alloc, Want::Expression));
    };
    let Trees::End = &**rest else {
        return Err(place.form(alloc, Want::Expression));
    };
    let left = Box::new(alloc, read_expr(alloc, &place.child(1), left)?)?;
    let right = Box::new(alloc, read_expr(alloc, &place.child(2), right)?)?;
    Ok(Expr::Two(op, left, right))
}

#[cycle(read)]
fn read_pick(alloc: Global, place: &Place<'_>, operands: &Trees) -> Result<Expr, FormFault>
    ensures value { IfOk result (λ e. pick_in_trees (path_of place.now) (plain_all operands.now)
        ≡ got (expression_of e)) }
    ensures fault { IfErr result (λ f. IsTrue (refuses f) → pick_in_trees (path_of place.now)
        (plain_all operands.now) ≡ refused f) }
{
    let Trees::More(cond, rest) = operands else {
        return Err(place.form(alloc, Want::Expression));
    };
    let Trees::More(then, rest) = &**rest else {
        return Err(place.form(alloc, Want::Expression));
    };
    let Trees::More(other, rest) = &**rest else {
        return Err(place.form(alloc, Want::Expression));
    };
    let Trees::End = &**rest else {
        return Err(place.form(alloc, Want::Expression));
    };
    let cond = Box::new(alloc, read_expr(alloc, &place.child(1), cond)?)?;
    let then = Box::new(alloc, read_expr(alloc, &place.child(2), then)?)?;
    let other = Box::new(alloc, read_expr(alloc, &place.child(3), other)?)?;
    Ok(Expr::Pick(cond, then, other))
}

#[cycle(read)]
fn read_get(alloc: Global, place: &Place<'_>, operands: &Trees) -> Result<Expr, FormFault>
    ensures value { IfOk result (λ e. get_in_trees (path_of place.now) (plain_all operands.now)
        ≡ got (expression_of e)) }
    ensures fault { IfErr result (λ f. IsTrue (refuses f) → get_in_trees (path_of place.now)
        (plain_all operands.now) ≡ refused f) }
{
    let Trees::More(model, rest) = operands else {
        return Err(place.form(alloc, Want::Expression));
    };
    let Trees::More(field, rest) = &**rest else {
        return Err(place.form(alloc, Want::Expression));
    };
    let Trees::More(record, rest) = &**rest else {
        return Err(place.form(alloc, Want::Expression));
    };
    let Trees::End = &**rest else {
        return Err(place.form(alloc, Want::Expression));
    };
    let model = read_name(alloc, &place.child(1), model)?;
    let field = read_name(alloc, &place.child(2), field)?;
    let record = Box::new(alloc, read_expr(alloc, &place.child(3), record)?)?;
    Ok(Expr::Get(model, field, record))
}

#[cycle(read)]
fn read_parts(alloc: Global, place: &Place<'_>, operands: &Trees) -> Result<Exprs, FormFault>
    ensures value { IfOk result (λ es. expressions_in_trees (path_of place.now) 1
        (plain_all operands.now) ≡ got (expressions_of es)) }
    ensures fault { IfErr result (λ f. IsTrue (refuses f) → expressions_in_trees (path_of place.now)
        1 (plain_all operands.now) ≡ refused f) }
{
    let mut back = Exprs::End;
    let mut number: u32 = 1;
    let mut left = operands;
    'parts: while let Trees::More(first, rest) = left {
        let first = Box::new(alloc, read_expr(alloc, &place.child(number), first)?)?;
        back = Exprs::More(first, Box::new(alloc, back)?);
        number = next_number(number)?;
        left = rest;
    }
    let parts = back.before(Exprs::End);
    Ok(parts)
}

#[cycle(read)]
fn read_asked(
    alloc: Global,
    place: &Place<'_>,
    most: Most,
    operands: &Trees,
) -> Result<Query, FormFault>
    ensures value { IfOk result (λ q. query_in_trees (path_of place.now) (plain_all operands.now)
        (most_binders most) ≡ got (question_of q)) }
    ensures fault { IfErr result (λ f. IsTrue (refuses f) → query_in_trees (path_of place.now)
        (plain_all operands.now) (most_binders most) ≡ refused f) }
{
    let Trees::More(query, rest) = operands else {
        return Err(place.form(alloc, Want::Expression));
    };
    let Trees::End = &**rest else {
        return Err(place.form(alloc, Want::Expression));
    };
    let query = read_query(alloc, &place.child(1), most, query)?;
    Ok(query)
}

#[cycle(read)]
fn read_sum(alloc: Global, place: &Place<'_>, operands: &Trees) -> Result<Expr, FormFault>
    ensures value { IfOk result (λ e. sum_in_trees (path_of place.now) (plain_all operands.now)
        ≡ got (expression_of e)) }
    ensures fault { IfErr result (λ f. IsTrue (refuses f) → sum_in_trees (path_of place.now)
        (plain_all operands.now) ≡ refused f) }
{
    let Trees::More(query, rest) = operands else {
        return Err(place.form(alloc, Want::Expression));
    };
    let Trees::More(each, rest) = &**rest else {
        return Err(place.form(alloc, Want::Expression));
    };
    let Trees::End = &**rest else {
        return Err(place.form(alloc, Want::Expression));
    };
    let query = Box::new(alloc, read_query(alloc, &place.child(1), Most::One, query)?)?;
    let each = Box::new(alloc, read_expr(alloc, &place.child(2), each)?)?;
    Ok(Expr::Sum(query, each))
}

#[cycle(read)]
pub fn read_query(
    alloc: Global,
    place: &Place<'_>,
    most: Most,
    tree: &Tree,
) -> Result<Query, FormFault>
    ensures value { IfOk result (λ q. question_in_tree (most_binders most) (path_of place.now)
        (plain tree.now) ≡ got (question_of q)) }
    ensures fault { IfErr result (λ f. IsTrue (refuses f) → question_in_tree (most_binders most)
        (path_of place.now) (plain tree.now) ≡ refused f) }
{
    let Tree::List(trees) = tree else {
        return Err(place.form(alloc, Want::Query));
    };
    let Trees::More(word, rest) = trees else {
        return Err(place.form(alloc, Want::Query));
    };
    let Trees::More(binders, rest) = &**rest else {
        return Err(place.form(alloc, Want::Query));
    };
    let Trees::More(cond, rest) = &**rest else {
        return Err(place.form(alloc, Want::Query));
    };
    let Trees::More(order, rest) = &**rest else {
        return Err(place.form(alloc, Want::Query));
    };
    let Trees::End = &**rest else {
        return Err(place.form(alloc, Want::Query));
    };
    if !is_word(word, b"from") {
        return Err(place.form(alloc, Want::Query));
    }
    if !has_few(most, binders) {
        return Err(place.form(alloc, Want::Query));
    }
    let binders = read_binders(alloc, &place.child(1), most, binders)?;
    let cond = read_expr(alloc, &place.child(2), cond)?;
    let order = read_order(alloc, &place.child(3), order)?;
    Ok(Query {
        binders,
        cond,
        order,
    })
}
