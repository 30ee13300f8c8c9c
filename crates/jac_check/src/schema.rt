ghost use Rattle.std.specs.Prelude.{◌≡◌, ◌++◌, OnOk, IfOk};
ghost use Rattle.std.specs.String.{string_bytes};
ghost use Rattle.jac_lang.specs.Mirror.{assigned_of, entities_of, entity_of, field_group_of, groups_of};
ghost use Rattle.jac_tree.specs.Plain.{PlainTree};
ghost use Rattle.jac_tree.specs.Printed.{printed_tree, printed_after};
ghost use Rattle.jac_check.specs.Schema.{field_tree, field_trees, fields_tree, group_trees, group_tree, groups_tree, guard_trees, list_trees, nested_atom_before, kind_tree, model_tree, model_trees, schema_tree};

use jac_lang::{Field, Group, KindName, ModelDef, Publics};
use jac_value::{Memory, Txt};
use std::alloc::Global;

/// The schema text of models.
pub fn schema_of(alloc: Global, models: &[ModelDef]) -> Result<Txt, Memory>
    ensures { IfOk result (λ text. text ≡ printed_tree (schema_tree (entities_of models.now))) }
{
    let mut text = String::new(alloc);
    put_schema(models, &mut text)?;
    Ok(Txt::from_string(text))
}

fn put_schema(models: &[ModelDef], to: &mut String) -> Result<(), Memory>
    ensures { OnOk result (string_bytes to.new ≡ string_bytes to.old ++ printed_tree
        (schema_tree (entities_of models.now))) }
{
    to.push_str("(schema")?;
    put_models(models, to)?;
    to.push(')')?;
    Ok(())
}

fn put_models(models: &[ModelDef], to: &mut String) -> Result<(), Memory>
    ensures { OnOk result (string_bytes to.new ≡ string_bytes to.old ++ printed_after
        (model_trees (entities_of models.now))) }
{
    'models: for model in models {
        to.push(' ')?;
        put_model(model, to)?;
    }
    Ok(())
}

fn put_model(model: &ModelDef, to: &mut String) -> Result<(), Memory>
    ensures { OnOk result (string_bytes to.new ≡ string_bytes to.old ++ printed_tree
        (model_tree (entity_of model.now))) }
{
    to.push_str("(model ")?;
    to.push_str(model.name.as_str())?;
    put_parts(model, to)?;
    to.push(')')?;
    Ok(())
}

// Prints the parts after a model's name.
fn put_parts(model: &ModelDef, to: &mut String) -> Result<(), Memory>
    ensures { OnOk result (string_bytes to.new ≡ string_bytes to.old ++ printed_after
        (nested_atom_before model.now.nested (list_trees (entity_of model.now)))) }
{
    if model.nested {
        to.push_str(" nested")?;
        put_lists(model, to)
    } else {
        put_lists(model, to)
    }
}

fn put_lists(model: &ModelDef, to: &mut String) -> Result<(), Memory>
    ensures { OnOk result (string_bytes to.new ≡ string_bytes to.old ++ printed_after
        (list_trees (entity_of model.now))) }
{
    to.push(' ')?;
    put_fields(model.fields.as_slice(), to)?;
    to.push(' ')?;
    put_groups(model.groups.as_slice(), to)?;
    Ok(())
}

fn put_fields(fields: &[Field], to: &mut String) -> Result<(), Memory>
    ensures { OnOk result (string_bytes to.new ≡ string_bytes to.old ++ printed_tree
        (fields_tree fields.now)) }
{
    to.push_str("(fields")?;
    put_each_field(fields, to)?;
    to.push(')')?;
    Ok(())
}

fn put_each_field(fields: &[Field], to: &mut String) -> Result<(), Memory>
    ensures { OnOk result (string_bytes to.new ≡ string_bytes to.old ++ printed_after
        (field_trees fields.now)) }
{
    'fields: for field in fields {
        to.push(' ')?;
        put_field(field, to)?;
    }
    Ok(())
}

fn put_field(field: &Field, to: &mut String) -> Result<(), Memory>
    ensures { OnOk result (string_bytes to.new ≡ string_bytes to.old ++ printed_tree
        (field_tree field.now)) }
{
    to.push('(')?;
    to.push_str(field.name.as_str())?;
    to.push(' ')?;
    put_kind(&field.kind, to)?;
    to.push(')')?;
    Ok(())
}

fn put_kind(kind: &KindName, to: &mut String) -> Result<(), Memory>
    ensures { OnOk result (string_bytes to.new ≡ string_bytes to.old ++ printed_tree
        (kind_tree kind.now)) }
{
    match kind {
        KindName::Int => to.push_str("int")?,
        KindName::Text => to.push_str("text")?,
        KindName::Bool => to.push_str("bool")?,
        KindName::Ref(model) => put_reference(model, to)?,
    }
    Ok(())
}

fn put_reference(model: &Txt, to: &mut String) -> Result<(), Memory>
    ensures { OnOk result (string_bytes to.new ≡ string_bytes to.old ++ printed_tree
        (kind_tree (KindName.Ref model.now))) }
{
    to.push_str("(ref ")?;
    to.push_str(model.as_str())?;
    to.push(')')?;
    Ok(())
}

fn put_groups(groups: &[Group], to: &mut String) -> Result<(), Memory>
    ensures { OnOk result (string_bytes to.new ≡ string_bytes to.old ++ printed_tree
        (groups_tree (groups_of groups.now))) }
{
    to.push_str("(groups")?;
    put_each_group(groups, to)?;
    to.push(')')?;
    Ok(())
}

fn put_each_group(groups: &[Group], to: &mut String) -> Result<(), Memory>
    ensures { OnOk result (string_bytes to.new ≡ string_bytes to.old ++ printed_after
        (group_trees (groups_of groups.now))) }
{
    'groups: for group in groups {
        to.push(' ')?;
        put_group(group, to)?;
    }
    Ok(())
}

fn put_group(group: &Group, to: &mut String) -> Result<(), Memory>
    ensures { OnOk result (string_bytes to.new ≡ string_bytes to.old ++ printed_tree
        (group_tree (field_group_of group.now))) }
{
    if group.hides {
        to.push_str("hides")?;
        Ok(())
    } else {
        put_guarded(&group.guards, to)
    }
}

// Prints the fields that a group guards.
fn put_guarded(guards: &Publics, to: &mut String) -> Result<(), Memory>
    ensures { OnOk result (string_bytes to.new ≡ string_bytes to.old ++ printed_tree
        (PlainTree.list (guard_trees (assigned_of guards.now)))) }
{
    to.push('(')?;
    if let Publics::More(first, rest) = guards {
        to.push_str(first.field.as_str())?;
        put_guards(rest, to)?;
    }
    to.push(')')?;
    Ok(())
}

// Prints the guards that follow another one.
fn put_guards(guards: &Publics, to: &mut String) -> Result<(), Memory>
    ensures { OnOk result (string_bytes to.new ≡ string_bytes to.old ++ printed_after
        (guard_trees (assigned_of guards.now))) }
{
    let mut left = guards;
    'guards: while let Publics::More(first, rest) = left {
        to.push(' ')?;
        to.push_str(first.field.as_str())?;
        left = rest;
    }
    Ok(())
}
