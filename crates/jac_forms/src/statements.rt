ghost use Rattle.std.specs.Prelude.{◌≡◌, Some, IfOk, IfErr, IsTrue};
ghost use Rattle.jac_lang.specs.Mirror.{statement_of, statements_of};
ghost use Rattle.jac_tree.specs.Mirror.{plain, plain_all};
ghost use Rattle.jac_forms.specs.Statements.{assign_in_trees, bind_in_trees, body, body_in_tree, branch_in_trees, create_in_trees, delete_in_trees, each_of_query, missing_in_trees, next_site, numbered_statement, statement_operands, single_in_trees, statement_in_list, statement_in_tree, statement_of_step, statements_in_trees, template_in_trees, update_in_trees};
ghost use Rattle.jac_forms.specs.Places.{path_of};
ghost use Rattle.jac_forms.specs.Reads.{got, refused};
ghost use Rattle.jac_forms.specs.Refusal.{refuses};

use crate::assigned::read_set;
use crate::expressions::{read_expr, read_only, read_query};
use crate::names::{next_number, read_name};
use crate::place::Place;
use crate::queries::Most;
use crate::steps::{Single, Step, step_of};
use crate::{FormFault, Want};
use jac_lang::{Stmt, Stmts};
use jac_tree::{Tree, Trees};
use std::alloc::Global;

/// Reads statements, from the child `first` of a list on. Their sites are numbered from `sites`,
/// which is then set to the next site.
#[cycle(read)]
pub fn read_stmts(
    alloc: Global,
    place: &Place<'_>,
    first: u32,
    sites: &mut u8,
    trees: &Trees,
) -> Result<Stmts, FormFault>
    ensures value { IfOk result (λ ss. statements_in_trees (path_of place.now) first
        (plain_all trees.now) sites.old ≡ got (body sites.new (statements_of ss))) }
    ensures fault { IfErr result (λ f. IsTrue (refuses f) → statements_in_trees (path_of place.now)
        first (plain_all trees.now) sites.old ≡ refused f) }
{
    let mut back = Stmts::End;
    let mut number = first;
    let mut left = trees;
    'statements: while let Trees::More(one, rest) = left {
        let one = read_stmt(alloc, &place.child(number), sites, one)?;
        back = Stmts::More(Box::new(alloc, one)?, Box::new(alloc, back)?);
        number = next_number(number)?;
        left = rest;
    }
    let statements = back.before(Stmts::End);
    Ok(statements)
}

#[cycle(read)]
fn read_stmt(
    alloc: Global,
    place: &Place<'_>,
    sites: &mut u8,
    tree: &Tree,
) -> Result<Stmt, FormFault>
    ensures value { IfOk result (λ s. statement_in_tree (path_of place.now) (plain tree.now)
        sites.old ≡ got (numbered_statement sites.new (statement_of s))) }
    ensures fault { IfErr result (λ f. IsTrue (refuses f) → statement_in_tree (path_of place.now)
        (plain tree.now) sites.old ≡ refused f) }
{
    match tree {
        Tree::List(trees) => {
            let s = read_list(alloc, place, sites, trees)?;
            Ok(s)
        }
        Tree::Atom(_) => Err(place.form(alloc, Want::Statement)),
        Tree::Text(_) => Err(place.form(alloc, Want::Statement)),
    }
}

#[cycle(read)]
fn read_list(
    alloc: Global,
    place: &Place<'_>,
    sites: &mut u8,
    trees: &Trees,
) -> Result<Stmt, FormFault>
    ensures value { IfOk result (λ s. statement_in_list (path_of place.now) (plain_all trees.now)
        sites.old ≡ got (numbered_statement sites.new (statement_of s))) }
    ensures fault { IfErr result (λ f. IsTrue (refuses f) → statement_in_list (path_of place.now)
        (plain_all trees.now) sites.old ≡ refused f) }
{
    let Trees::More(head, operands) = trees else {
        return Err(place.form(alloc, Want::Statement));
    };
    match step_of(head) {
        Some(step) => {
            let s = read_step(alloc, place, sites, step, operands)?;
            Ok(s)
        }
        None => Err(place.form(alloc, Want::Statement)),
    }
}

#[cycle(read)]
fn read_step(
    alloc: Global,
    place: &Place<'_>,
    sites: &mut u8,
    step: Step,
    operands: &Trees,
) -> Result<Stmt, FormFault>
    ensures value { IfOk result (λ s. statement_of_step (path_of place.now) (Some step)
        (statement_operands (path_of place.now) (plain_all operands.now)) sites.old
        ≡ got (numbered_statement sites.new (statement_of s))) }
    ensures fault { IfErr result (λ f. IsTrue (refuses f) → statement_of_step (path_of place.now)
        (Some step) (statement_operands (path_of place.now) (plain_all operands.now)) sites.old
        ≡ refused f) }
{
    match step {
        Step::Single(single) => {
            let s = read_single(alloc, place, single, operands)?;
            Ok(s)
        }
        Step::Let => {
            let s = read_let(alloc, place, sites, operands)?;
            Ok(s)
        }
        Step::If => {
            let s = read_if(alloc, place, sites, operands)?;
            Ok(s)
        }
        Step::For => {
            let s = read_for(alloc, place, sites, operands)?;
            Ok(s)
        }
        Step::Create => {
            let s = read_create(alloc, place, sites, operands)?;
            Ok(s)
        }
    }
}

#[cycle(read)]
fn read_let(
    alloc: Global,
    place: &Place<'_>,
    sites: &mut u8,
    operands: &Trees,
) -> Result<Stmt, FormFault>
    ensures value { IfOk result (λ s. bind_in_trees (path_of place.now) (plain_all operands.now)
        sites.old ≡ got (numbered_statement sites.new (statement_of s))) }
    ensures fault { IfErr result (λ f. IsTrue (refuses f) → bind_in_trees (path_of place.now)
        (plain_all operands.now) sites.old ≡ refused f) }
{
    let Trees::More(name, rest) = operands else {
        return Err(place.form(alloc, Want::Statement));
    };
    let Trees::More(value, rest) = &**rest else {
        return Err(place.form(alloc, Want::Statement));
    };
    let name = read_name(alloc, &place.child(1), name)?;
    let value = read_expr(alloc, &place.child(2), value)?;
    let body = read_stmts(alloc, place, 3, sites, rest)?;
    Ok(Stmt::Let(name, value, body))
}

#[cycle(read)]
fn read_if(
    alloc: Global,
    place: &Place<'_>,
    sites: &mut u8,
    operands: &Trees,
) -> Result<Stmt, FormFault>
    ensures value { IfOk result (λ s. branch_in_trees (path_of place.now) (plain_all operands.now)
        sites.old ≡ got (numbered_statement sites.new (statement_of s))) }
    ensures fault { IfErr result (λ f. IsTrue (refuses f) → branch_in_trees (path_of place.now)
        (plain_all operands.now) sites.old ≡ refused f) }
{
    let Trees::More(cond, rest) = operands else {
        return Err(place.form(alloc, Want::Statement));
    };
    let Trees::More(then, rest) = &**rest else {
        return Err(place.form(alloc, Want::Statement));
    };
    let Trees::More(other, rest) = &**rest else {
        return Err(place.form(alloc, Want::Statement));
    };
    let Trees::End = &**rest else {
        return Err(place.form(alloc, Want::Statement));
    };
    let cond = read_expr(alloc, &place.child(1), cond)?;
    let then = read_body(alloc, &place.child(2), sites, then)?;
    let other = read_body(alloc, &place.child(3), sites, other)?;
    Ok(Stmt::If(cond, then, other))
}

#[cycle(read)]
fn read_for(
    alloc: Global,
    place: &Place<'_>,
    sites: &mut u8,
    operands: &Trees,
) -> Result<Stmt, FormFault>
    ensures value { IfOk result (λ s. each_of_query (path_of place.now) (plain_all operands.now)
        sites.old ≡ got (numbered_statement sites.new (statement_of s))) }
    ensures fault { IfErr result (λ f. IsTrue (refuses f) → each_of_query (path_of place.now)
        (plain_all operands.now) sites.old ≡ refused f) }
{
    let Trees::More(query, rest) = operands else {
        return Err(place.form(alloc, Want::Statement));
    };
    let query = read_query(alloc, &place.child(1), Most::Three, query)?;
    let body = read_stmts(alloc, place, 2, sites, rest)?;
    Ok(Stmt::For(query, body))
}

#[cycle(read)]
fn read_create(
    alloc: Global,
    place: &Place<'_>,
    sites: &mut u8,
    operands: &Trees,
) -> Result<Stmt, FormFault>
    ensures value { IfOk result (λ s. create_in_trees (path_of place.now) (plain_all operands.now)
        sites.old ≡ got (numbered_statement sites.new (statement_of s))) }
    ensures fault { IfErr result (λ f. IsTrue (refuses f) → create_in_trees (path_of place.now)
        (plain_all operands.now) sites.old ≡ refused f) }
{
    let Trees::More(name, rest) = operands else {
        return Err(place.form(alloc, Want::Statement));
    };
    let Trees::More(model, rest) = &**rest else {
        return Err(place.form(alloc, Want::Statement));
    };
    let Trees::More(cells, rest) = &**rest else {
        return Err(place.form(alloc, Want::Statement));
    };
    let name = read_name(alloc, &place.child(1), name)?;
    let model = read_name(alloc, &place.child(2), model)?;
    let cells = read_set(alloc, &place.child(3), cells)?;
    let site = *sites;
    *sites = next_site(site);
    let body = read_stmts(alloc, place, 4, sites, rest)?;
    Ok(Stmt::Create {
        name,
        model,
        site,
        cells,
        body,
    })
}

#[cycle(read)]
fn read_body(
    alloc: Global,
    place: &Place<'_>,
    sites: &mut u8,
    tree: &Tree,
) -> Result<Stmts, FormFault>
    ensures value { IfOk result (λ ss. body_in_tree (path_of place.now) (plain tree.now) sites.old
        ≡ got (body sites.new (statements_of ss))) }
    ensures fault { IfErr result (λ f. IsTrue (refuses f) → body_in_tree (path_of place.now)
        (plain tree.now) sites.old ≡ refused f) }
{
    match tree {
        Tree::List(trees) => {
            let ss = read_stmts(alloc, place, 0, sites, trees)?;
            Ok(ss)
        }
        Tree::Atom(_) => Err(place.form(alloc, Want::Body)),
        Tree::Text(_) => Err(place.form(alloc, Want::Body)),
    }
}

// The next site. A view has at most 64 sites, so it is enough to count to 65.
fn next_site(site: u8) -> u8
    ensures { result ≡ next_site site }
{
    if site < 65 { site + 1 } else { 65 }
}

fn read_single(
    alloc: Global,
    place: &Place<'_>,
    single: Single,
    operands: &Trees,
) -> Result<Stmt, FormFault>
    ensures value { IfOk result (λ s. single_in_trees (path_of place.now) (plain_all operands.now)
        single ≡ got (statement_of s)) }
    ensures fault { IfErr result (λ f. IsTrue (refuses f) → single_in_trees (path_of place.now)
        (plain_all operands.now) single ≡ refused f) }
{
    match single {
        Single::Put => {
            let e = read_only(alloc, place, Want::Statement, operands)?;
            Ok(Stmt::Put(e))
        }
        Single::Esc => {
            let e = read_only(alloc, place, Want::Statement, operands)?;
            Ok(Stmt::Esc(e))
        }
        Single::Assign => {
            let s = read_assign(alloc, place, operands)?;
            Ok(s)
        }
        Single::Update => {
            let s = read_update(alloc, place, operands)?;
            Ok(s)
        }
        Single::Delete => {
            let s = read_delete(alloc, place, operands)?;
            Ok(s)
        }
        Single::Missing => {
            let s = read_missing(alloc, place, operands)?;
            Ok(s)
        }
        Single::Redirect => {
            let e = read_only(alloc, place, Want::Statement, operands)?;
            Ok(Stmt::Redirect(e))
        }
        Single::Template => {
            let s = read_template(alloc, place, operands)?;
            Ok(s)
        }
    }
}

fn read_assign(alloc: Global, place: &Place<'_>, operands: &Trees) -> Result<Stmt, FormFault>
    ensures value { IfOk result (λ s. assign_in_trees (path_of place.now) (plain_all operands.now)
        ≡ got (statement_of s)) }
    ensures fault { IfErr result (λ f. IsTrue (refuses f) → assign_in_trees (path_of place.now)
        (plain_all operands.now) ≡ refused f) }
{
    let Trees::More(name, rest) = operands else {
        return Err(place.form(alloc, Want::Statement));
    };
    let Trees::More(value, rest) = &**rest else {
        return Err(place.form(alloc, Want::Statement));
    };
    let Trees::End = &**rest else {
        return Err(place.form(alloc, Want::Statement));
    };
    let name = read_name(alloc, &place.child(1), name)?;
    let value = read_expr(alloc, &place.child(2), value)?;
    Ok(Stmt::Assign(name, value))
}

fn read_update(alloc: Global, place: &Place<'_>, operands: &Trees) -> Result<Stmt, FormFault>
    ensures value { IfOk result (λ s. update_in_trees (path_of place.now) (plain_all operands.now)
        ≡ got (statement_of s)) }
    ensures fault { IfErr result (λ f. IsTrue (refuses f) → update_in_trees (path_of place.now)
        (plain_all operands.now) ≡ refused f) }
{
    let Trees::More(model, rest) = operands else {
        return Err(place.form(alloc, Want::Statement));
    };
    let Trees::More(target, rest) = &**rest else {
        return Err(place.form(alloc, Want::Statement));
    };
    let Trees::More(cells, rest) = &**rest else {
        return Err(place.form(alloc, Want::Statement));
    };
    let Trees::End = &**rest else {
        return Err(place.form(alloc, Want::Statement));
    };
    let model = read_name(alloc, &place.child(1), model)?;
    let target = read_expr(alloc, &place.child(2), target)?;
    let cells = read_set(alloc, &place.child(3), cells)?;
    Ok(Stmt::Update(model, target, cells))
}

fn read_delete(alloc: Global, place: &Place<'_>, operands: &Trees) -> Result<Stmt, FormFault>
    ensures value { IfOk result (λ s. delete_in_trees (path_of place.now) (plain_all operands.now)
        ≡ got (statement_of s)) }
    ensures fault { IfErr result (λ f. IsTrue (refuses f) → delete_in_trees (path_of place.now)
        (plain_all operands.now) ≡ refused f) }
{
    let Trees::More(model, rest) = operands else {
        return Err(place.form(alloc, Want::Statement));
    };
    let Trees::More(target, rest) = &**rest else {
        return Err(place.form(alloc, Want::Statement));
    };
    let Trees::End = &**rest else {
        return Err(place.form(alloc, Want::Statement));
    };
    let model = read_name(alloc, &place.child(1), model)?;
    let target = read_expr(alloc, &place.child(2), target)?;
    Ok(Stmt::Delete(model, target))
}

fn read_missing(alloc: Global, place: &Place<'_>, operands: &Trees) -> Result<Stmt, FormFault>
    ensures value { IfOk result (λ s. missing_in_trees (path_of place.now) (plain_all operands.now)
        ≡ got (statement_of s)) }
    ensures fault { IfErr result (λ f. IsTrue (refuses f) → missing_in_trees (path_of place.now)
        (plain_all operands.now) ≡ refused f) }
{
    match operands {
        Trees::End => Ok(Stmt::Missing),
        Trees::More(_, _) => Err(place.form(alloc, Want::Statement)),
    }
}

fn read_template(alloc: Global, place: &Place<'_>, operands: &Trees) -> Result<Stmt, FormFault>
    ensures value { IfOk result (λ s. template_in_trees (path_of place.now) (plain_all operands.now)
        ≡ got (statement_of s)) }
    ensures fault { IfErr result (λ f. IsTrue (refuses f) → template_in_trees (path_of place.now)
        (plain_all operands.now) ≡ refused f) }
{
    let Trees::More(text, rest) = operands else {
        return Err(place.form(alloc, Want::Statement));
    };
    let Trees::End = &**rest else {
        return Err(place.form(alloc, Want::Statement));
    };
    let Tree::Text(text) = &**text else {
        return Err(place.form(alloc, Want::Statement));
    };
    let text = text.copy(alloc)?;
    Ok(Stmt::Template(text))
}
