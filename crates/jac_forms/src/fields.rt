ghost use Rattle.std.specs.Prelude.{◌≡◌, ◌≤◌, IfOk, IfErr, IsTrue, length};
ghost use Rattle.jac_tree.specs.Mirror.{plain, plain_all};
ghost use Rattle.jac_forms.specs.Applications.{few_fields, field_in_tree, fields_in_tree, kind_in_tree, one_name_in_trees, params_in_tree, plain_kind_of};
ghost use Rattle.jac_forms.specs.Names.{each_in_trees};
ghost use Rattle.jac_forms.specs.Places.{path_of};
ghost use Rattle.jac_forms.specs.Reads.{got, refused};
ghost use Rattle.jac_forms.specs.Refusal.{refuses};
ghost use Rattle.jac_tree.specs.Plain.{count};

use crate::names::{count, next_number, read_name};
use crate::place::Place;
use crate::{FormFault, Want, What};
use jac_lang::{Field, Fields, KindName};
use jac_tree::{Tree, Trees, is_up_to, tail_of};
use jac_value::Txt;
use std::alloc::Global;

/// Reads the fields of a model, at most 32.
pub fn read_fields(alloc: Global, place: &Place<'_>, tree: &Tree) -> Result<Fields, FormFault>
    ensures value { IfOk result (λ fs. fields_in_tree (path_of place.now) (plain tree.now)
        ≡ got fs) }
    ensures few { IfOk result (λ fs. length fs ≤ 32) }
    ensures fault { IfErr result (λ f. IsTrue (refuses f) → fields_in_tree (path_of place.now)
        (plain tree.now) ≡ refused f) }
{
    match tail_of(tree, b"fields") {
        Some(trees) => {
            let fields = read_few(alloc, place, trees)?;
            Ok(fields)
        }
        None => Err(place.form(alloc, Want::Fields)),
    }
}

/// Reads the parameters of a view.
pub fn read_params(alloc: Global, place: &Place<'_>, tree: &Tree) -> Result<Fields, FormFault>
    ensures value { IfOk result (λ fs. params_in_tree (path_of place.now) (plain tree.now)
        ≡ got fs) }
    ensures fault { IfErr result (λ f. IsTrue (refuses f) → params_in_tree (path_of place.now)
        (plain tree.now) ≡ refused f) }
{
    match tail_of(tree, b"params") {
        Some(trees) => {
            let params = read_each(alloc, place, Want::Param, trees)?;
            Ok(params)
        }
        None => Err(place.form(alloc, Want::Params)),
    }
}

fn read_few(alloc: Global, place: &Place<'_>, trees: &Trees) -> Result<Fields, FormFault>
    ensures value { IfOk result (λ fs. few_fields (path_of place.now) (plain_all trees.now)
        ≡ got fs) }
    ensures few { IfOk result (λ fs. length fs ≤ 32) }
    ensures fault { IfErr result (λ f. IsTrue (refuses f)
        → few_fields (path_of place.now) (plain_all trees.now) ≡ refused f) }
{
    if is_up_to(trees, 32) {
        let fields = read_each(alloc, place, Want::Field, trees)?;
        Ok(fields)
    } else {
        Err(place.too_many(alloc, What::Fields, count(trees)?))
    }
}

fn read_each(
    alloc: Global,
    place: &Place<'_>,
    want: Want,
    trees: &Trees,
) -> Result<Fields, FormFault>
    ensures value { IfOk result (λ fs. each_in_trees (field_in_tree want) (path_of place.now) 1
        (plain_all trees.now) ≡ got fs) }
    ensures count { IfOk result (λ fs. length fs ≡ count (plain_all trees.now)) }
    ensures fault { IfErr result (λ f. IsTrue (refuses f) → each_in_trees (field_in_tree want)
        (path_of place.now) 1 (plain_all trees.now) ≡ refused f) }
{
    let mut fields = Vec::new(alloc);
    let mut number: u32 = 1;
    let mut left = trees;
    'fields: while let Trees::More(first, rest) = left {
        let field = read_field(alloc, &place.child(number), want, first)?;
        fields.push(field)?;
        number = next_number(number)?;
        left = rest;
    }
    Ok(Fields::from_vec(fields))
}

fn read_field(alloc: Global, place: &Place<'_>, want: Want, tree: &Tree) -> Result<Field, FormFault>
    ensures value { IfOk result (λ f. field_in_tree want (path_of place.now) (plain tree.now)
        ≡ got f) }
    ensures fault { IfErr result (λ f. IsTrue (refuses f) → field_in_tree want (path_of place.now)
        (plain tree.now) ≡ refused f) }
{
    let Tree::List(Trees::More(name, rest)) = tree else {
        return Err(place.form(alloc, want));
    };
    let Trees::More(kind, rest) = &**rest else {
        return Err(place.form(alloc, want));
    };
    let Trees::End = &**rest else {
        return Err(place.form(alloc, want));
    };
    let name = read_name(alloc, &place.child(0), name)?;
    let kind = read_kind(alloc, &place.child(1), kind)?;
    Ok(Field { name, kind })
}

fn read_kind(alloc: Global, place: &Place<'_>, tree: &Tree) -> Result<KindName, FormFault>
    ensures value { IfOk result (λ k. kind_in_tree (path_of place.now) (plain tree.now) ≡ got k) }
    ensures fault { IfErr result (λ f. IsTrue (refuses f) → kind_in_tree (path_of place.now)
        (plain tree.now) ≡ refused f) }
{
    match tree {
        Tree::Atom(word) => match plain_kind_of(word.as_str()) {
            Some(kind) => Ok(kind),
            None => Err(place.form(alloc, Want::Kind)),
        },
        _ => match tail_of(tree, b"ref") {
            Some(model) => {
                let model = read_only_name(alloc, place, Want::Kind, model)?;
                Ok(KindName::Ref(model))
            }
            None => Err(place.form(alloc, Want::Kind)),
        },
    }
}

fn plain_kind_of(word: &str) -> Option<KindName>
    ensures { result ≡ plain_kind_of word.now }
{
    if word == "int" {
        Some(KindName::Int)
    } else if word == "text" {
        Some(KindName::Text)
    } else if word == "bool" {
        Some(KindName::Bool)
    } else {
        None
    }
}

/// Reads the only name after the head of a list. Anything else is a fault with `want`.
pub fn read_only_name(
    alloc: Global,
    place: &Place<'_>,
    want: Want,
    trees: &Trees,
) -> Result<Txt, FormFault>
    ensures value { IfOk result (λ name. one_name_in_trees want (path_of place.now)
        (plain_all trees.now) ≡ got name) }
    ensures fault { IfErr result (λ f. IsTrue (refuses f)
        → one_name_in_trees want (path_of place.now) (plain_all trees.now) ≡ refused f) }
{
    let Trees::More(name, rest) = trees else {
        return Err(place.form(alloc, want));
    };
    let Trees::End = &**rest else {
        return Err(place.form(alloc, want));
    };
    let name = read_name(alloc, &place.child(1), name)?;
    Ok(name)
}
