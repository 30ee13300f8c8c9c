ghost use Rattle.std.specs.Prelude.{◌≡◌, IfOk, IfErr, IsTrue, nat_le};
ghost use Rattle.jac_lang.specs.Mirror.{assigned_of, expression_of, field_group_of, groups_of, entity_of};
ghost use Rattle.jac_tree.specs.Mirror.{plain, plain_all};
ghost use Rattle.jac_forms.specs.Applications.{entity_behind, entity_in_tree, entity_in_trees, group_in_tree, group_in_trees, guarding, guarding_in_tree, guards_in_tree, policy_in_tree, some_guards};
ghost use Rattle.jac_forms.specs.Names.{each_in_trees};
ghost use Rattle.jac_forms.specs.Places.{path_of};
ghost use Rattle.jac_forms.specs.Reads.{got, refused};
ghost use Rattle.jac_forms.specs.Refusal.{refuses};
ghost use Rattle.jac_tree.specs.Plain.{count};

use crate::assigned::read_assigned;
use crate::expressions::read_only;
use crate::fields::read_fields;
use crate::names::{count, next_number, read_name};
use crate::place::Place;
use crate::{FormFault, Want, What};
use jac_lang::{Expr, Group, Groups, ModelDef, Publics};
use jac_tree::{Tree, Trees, is_up_to, is_word, tail_of};
use std::alloc::Global;

pub fn read_model(alloc: Global, place: &Place<'_>, tree: &Tree) -> Result<ModelDef, FormFault>
    ensures value { IfOk result (λ m. entity_in_tree (path_of place.now) (plain tree.now)
        ≡ got (entity_of m)) }
    ensures fault { IfErr result (λ f. IsTrue (refuses f) → entity_in_tree (path_of place.now)
        (plain tree.now) ≡ refused f) }
{
    match tail_of(tree, b"model") {
        Some(parts) => {
            let model = read_parts(alloc, place, parts)?;
            Ok(model)
        }
        None => Err(place.form(alloc, Want::Item)),
    }
}

fn read_parts(alloc: Global, place: &Place<'_>, parts: &Trees) -> Result<ModelDef, FormFault>
    ensures value { IfOk result (λ m. entity_in_trees (path_of place.now) (plain_all parts.now)
        ≡ got (entity_of m)) }
    ensures fault { IfErr result (λ f. IsTrue (refuses f) → entity_in_trees (path_of place.now)
        (plain_all parts.now) ≡ refused f) }
{
    let Trees::More(name, rest) = parts else {
        return Err(place.form(alloc, Want::Item));
    };
    let Trees::More(second, behind) = &**rest else {
        return Err(place.form(alloc, Want::Item));
    };
    if is_word(second, b"nested") {
        let model = read_behind(alloc, place, true, 3, name, behind)?;
        return Ok(model);
    }
    let model = read_behind(alloc, place, false, 2, name, rest)?;
    Ok(model)
}

// Reads the parts of a model after its name, or after `nested`, from the child `first` on.
fn read_behind(
    alloc: Global,
    place: &Place<'_>,
    nested: bool,
    first: u32,
    name: &Tree,
    parts: &Trees,
) -> Result<ModelDef, FormFault>
    ensures value { IfOk result (λ m. entity_behind (path_of place.now) nested first
        (plain name.now) (plain_all parts.now) ≡ got (entity_of m)) }
    ensures fault { IfErr result (λ f. IsTrue (refuses f) → entity_behind (path_of place.now) nested
        first (plain name.now) (plain_all parts.now) ≡ refused f) }
{
    let Trees::More(fields, groups) = parts else {
        return Err(place.form(alloc, Want::Item));
    };
    if !is_up_to(groups, 8) {
        return Err(place.too_many(alloc, What::Groups, count(groups)?));
    }
    let name = read_name(alloc, &place.child(1), name)?;
    let fields = read_fields(alloc, &place.child(first), fields)?;
    let groups = read_groups(alloc, place, next_number(first)?, groups)?;
    Ok(ModelDef {
        name,
        nested,
        fields,
        groups,
    })
}

// Reads the groups of a model, from the child `first` on.
fn read_groups(
    alloc: Global,
    place: &Place<'_>,
    first: u32,
    trees: &Trees,
) -> Result<Groups, FormFault>
    requires { IsTrue (nat_le (count (plain_all trees.now)) 8) }
    ensures value { IfOk result (λ gs. each_in_trees group_in_tree (path_of place.now) first
        (plain_all trees.now) ≡ got (groups_of gs)) }
    ensures fault { IfErr result (λ f. IsTrue (refuses f)
        → each_in_trees group_in_tree (path_of place.now) first (plain_all trees.now) ≡ refused f) }
{
    let mut groups = Vec::new(alloc);
    let mut number = first;
    let mut left = trees;
    'groups: while let Trees::More(one, rest) = left {
        let group = read_group(alloc, &place.child(number), one)?;
        groups.push(group)?;
        number = next_number(number)?;
        left = rest;
    }
    Ok(Groups::from_vec(groups))
}

fn read_group(alloc: Global, place: &Place<'_>, tree: &Tree) -> Result<Group, FormFault>
    ensures value { IfOk result (λ g. group_in_tree (path_of place.now) (plain tree.now)
        ≡ got (field_group_of g)) }
    ensures fault { IfErr result (λ f. IsTrue (refuses f) → group_in_tree (path_of place.now)
        (plain tree.now) ≡ refused f) }
{
    match tail_of(tree, b"group") {
        Some(parts) => {
            let group = read_group_parts(alloc, place, parts)?;
            Ok(group)
        }
        None => Err(place.form(alloc, Want::Group)),
    }
}

fn read_group_parts(alloc: Global, place: &Place<'_>, parts: &Trees) -> Result<Group, FormFault>
    ensures value { IfOk result (λ g. group_in_trees (path_of place.now) (plain_all parts.now)
        ≡ got (field_group_of g)) }
    ensures fault { IfErr result (λ f. IsTrue (refuses f) → group_in_trees (path_of place.now)
        (plain_all parts.now) ≡ refused f) }
{
    let Trees::More(guards, rest) = parts else {
        return Err(place.form(alloc, Want::Group));
    };
    let Trees::More(policy, rest) = &**rest else {
        return Err(place.form(alloc, Want::Group));
    };
    let Trees::End = &**rest else {
        return Err(place.form(alloc, Want::Group));
    };
    let (guards, hides) = read_guarding(alloc, &place.child(1), guards)?;
    let policy = read_policy(alloc, &place.child(2), policy)?;
    Ok(Group {
        guards,
        hides,
        policy,
    })
}

// Reads the guards. There are none if the whole record is hidden.
fn read_guarding(
    alloc: Global,
    place: &Place<'_>,
    tree: &Tree,
) -> Result<(Publics, bool), FormFault>
    ensures value { IfOk result (λ g. guarding_in_tree (path_of place.now) (plain tree.now)
        ≡ got (guarding g.1 (assigned_of g.0))) }
    ensures fault { IfErr result (λ f. IsTrue (refuses f) → guarding_in_tree (path_of place.now)
        (plain tree.now) ≡ refused f) }
{
    if is_word(tree, b"hides") {
        return Ok((Publics::End, true));
    }
    let guards = read_guards(alloc, place, tree)?;
    Ok((guards, false))
}

fn read_guards(alloc: Global, place: &Place<'_>, tree: &Tree) -> Result<Publics, FormFault>
    ensures value { IfOk result (λ ps. guards_in_tree (path_of place.now) (plain tree.now)
        ≡ got (assigned_of ps)) }
    ensures fault { IfErr result (λ f. IsTrue (refuses f) → guards_in_tree (path_of place.now)
        (plain tree.now) ≡ refused f) }
{
    match tail_of(tree, b"guards") {
        Some(trees) => {
            let guards = read_some_guards(alloc, place, trees)?;
            Ok(guards)
        }
        None => Err(place.form(alloc, Want::Guard)),
    }
}

fn read_some_guards(alloc: Global, place: &Place<'_>, trees: &Trees) -> Result<Publics, FormFault>
    ensures value { IfOk result (λ ps. some_guards (path_of place.now) (plain_all trees.now)
        ≡ got (assigned_of ps)) }
    ensures fault { IfErr result (λ f. IsTrue (refuses f)
        → some_guards (path_of place.now) (plain_all trees.now) ≡ refused f) }
{
    if is_up_to(trees, 0) {
        return Err(place.form(alloc, Want::Guard));
    }
    let guards = read_assigned(alloc, place, Want::Guard, trees)?;
    Ok(guards)
}

fn read_policy(alloc: Global, place: &Place<'_>, tree: &Tree) -> Result<Expr, FormFault>
    ensures value { IfOk result (λ e. policy_in_tree (path_of place.now) (plain tree.now)
        ≡ got (expression_of e)) }
    ensures fault { IfErr result (λ f. IsTrue (refuses f) → policy_in_tree (path_of place.now)
        (plain tree.now) ≡ refused f) }
{
    match tail_of(tree, b"policy") {
        Some(trees) => {
            let policy = read_only(alloc, place, Want::Policy, trees)?;
            Ok(policy)
        }
        None => Err(place.form(alloc, Want::Policy)),
    }
}
