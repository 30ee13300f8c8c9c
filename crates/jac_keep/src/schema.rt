ghost use Rattle.std.specs.Prelude.{◌≡◌, ◌≤◌, ℕ, List, None, Some, IfOk, IfSome, codes, if◌then◌else◌};
ghost use Rattle.std.specs.Str.{bytes_eq};
ghost use Rattle.std.specs.Option.{option_map};
ghost use Rattle.jac_rows.specs.Good.{ModelShape};
ghost use Rattle.jac_tree.specs.Mirror.{plain, plain_all};
ghost use Rattle.jac_tree.specs.Printed.{printed_tree};
ghost use Rattle.jac_tree.specs.declared.fault.TreeFault.TheVariants as faults;
ghost use Rattle.jac_keep.specs.Schema.{IsSchema, are_group_trees, behind_nested, are_name_trees, begins_with_name, each_of, have_groups, is_group, is_name_tree, kind_of_tree, kind_of_field, is_nested_in, kinds_of_trees, kinds_of_lists, kinds_of_model, kinds_of_models, kinds_of_parts, kinds_of_schema, nested_of_models, nested_of_schema, place_from, place_named, plain_kind, reference_kind, shapes_by, shapes_of_schema, starts_nested};
ghost use Rattle.jac_tree.specs.Plain.{count, is_word, nesting, tail_of};

use jac_rows::{Flags, KindLists, Shape};
use jac_tree::{Tree, TreeFault, Trees, is_up_to, is_word, print_tree, read_text, tail_of};
use jac_value::{Kind, Kinds, Memory, Txt, is_name};
use std::alloc::Global;

// The largest number of models in a schema.
const MODEL_LIMIT: u8 = 64;

/// The shape of the stores that have this schema, or `None` if the text isn't a schema. A schema is
/// a printed tree `(schema (model NAME nested? (fields (NAME KIND) ..) (groups GROUP ..)) ..)` of
/// at most 64 models. A KIND is `int`, `text`, `bool` or `(ref NAME)`. A GROUP is `hides` or the
/// list of the fields that it guards.
pub fn shape_of(alloc: Global, schema: &Txt) -> Result<Option<Shape>, Memory>
    ensures shape { IfOk result (λ found. IfSome found (λ shape. IsSchema schema.now
        (shapes_by shape.kinds shape.nested))) }
    ensures none { IfOk result (λ found. found ≡ None → (shapes : List ModelShape)
        → ¬ (IsSchema schema.now shapes)) }
{
    match read_text(alloc, schema) {
        Ok(tree) => {
            let shape = shape_of_printed(alloc, schema, &tree)?;
            Ok(shape)
        }
        Err(fault) => without_tree(fault),
    }
}

/// A law, with nothing to run: a text is the schema of at most one list of shapes.
pub fn one_schema()
    ensures { (text : List ℕ) (shapes others : List ModelShape) → IsSchema text shapes
        → IsSchema text others → shapes ≡ others }
{}

// A text is no schema if it isn't a tree of at most 64 levels.
fn without_tree(fault: TreeFault) -> Result<Option<Shape>, Memory>
    ensures none { IfOk result (λ found. found ≡ None) }
    ensures spelled { IfOk result (λ _. ¬ (fault ≡ faults.Memory)) }
{
    match fault {
        TreeFault::Memory => Err(Memory),
        TreeFault::Long => Ok(None),
        TreeFault::NotUtf8(_) => Ok(None),
        TreeFault::Stray(_) => Ok(None),
        TreeFault::Deep(_) => Ok(None),
        TreeFault::Unclosed(_) => Ok(None),
    }
}

// The shape that the tree gives, if the text is the printed form of the tree.
fn shape_of_printed(alloc: Global, text: &Txt, tree: &Tree) -> Result<Option<Shape>, Memory>
    requires { nesting (plain tree.now) ≤ 64 }
    ensures { IfOk result (λ found. option_map (λ s. shapes_by s.kinds s.nested) found
        ≡ (if bytes_eq text.now (printed_tree (plain tree.now)) then shapes_of_schema
        (plain tree.now)
        else None)) }
{
    let printed = print_tree(alloc, tree)?;
    if text.as_bytes() == printed.as_slice() {
        let shape = shape_of_schema(alloc, tree)?;
        Ok(shape)
    } else {
        Ok(None)
    }
}

fn shape_of_schema(alloc: Global, tree: &Tree) -> Result<Option<Shape>, Memory>
    ensures { IfOk result (λ found. option_map (λ s. shapes_by s.kinds s.nested) found
        ≡ shapes_of_schema (plain tree.now)) }
{
    match kinds_of_schema(alloc, tree)? {
        Some(kinds) => {
            let nested = nested_of_schema(alloc, tree)?;
            Ok(Some(Shape { kinds, nested }))
        }
        None => Ok(None),
    }
}

fn nested_of_schema(alloc: Global, tree: &Tree) -> Result<Flags, Memory>
    ensures { IfOk result (λ flags. flags ≡ nested_of_schema (plain tree.now)) }
{
    match tail_of(tree, b"schema") {
        Some(models) => {
            let nested = nested_of_models(alloc, models)?;
            Ok(nested)
        }
        None => Ok(Flags::empty(alloc)),
    }
}

fn nested_of_models(alloc: Global, models: &Trees) -> Result<Flags, Memory>
    ensures { IfOk result (λ flags. flags ≡ nested_of_models (plain_all models.now)) }
{
    let mut flags = Vec::new(alloc);
    let mut left = models;
    'models: while let Trees::More(first, rest) = left {
        flags.push(is_nested_in(tail_of(first, b"model")))?;
        left = rest;
    }
    Ok(Flags::from_vec(flags))
}

fn is_nested_in(parts: Option<&Trees>) -> bool
    ensures { result ≡ is_nested_in (option_map (λ ts. plain_all ts.now) parts.entry) }
{
    match parts {
        Some(Trees::More(_, rest)) => starts_nested(rest),
        _ => false,
    }
}

fn starts_nested(trees: &Trees) -> bool
    ensures { result ≡ starts_nested (plain_all trees.now) }
{
    match trees {
        Trees::More(first, _) => is_word(first, b"nested"),
        Trees::End => false,
    }
}

fn behind_nested(trees: &Trees) -> &Trees
    ensures { plain_all result.now ≡ behind_nested (plain_all trees.now) }
{
    match trees {
        Trees::More(first, rest) => {
            if is_word(first, b"nested") {
                rest
            } else {
                trees
            }
        }
        Trees::End => trees,
    }
}

fn kinds_of_schema(alloc: Global, tree: &Tree) -> Result<Option<KindLists>, Memory>
    ensures { IfOk result (λ kinds. kinds ≡ kinds_of_schema (plain tree.now)) }
{
    match tail_of(tree, b"schema") {
        Some(models) => {
            let kinds = kinds_of_models(alloc, models)?;
            Ok(kinds)
        }
        None => Ok(None),
    }
}

fn kinds_of_models(alloc: Global, models: &Trees) -> Result<Option<KindLists>, Memory>
    ensures { IfOk result (λ kinds. kinds ≡ kinds_of_models (plain_all models.now)) }
{
    if is_up_to(models, u64::from(MODEL_LIMIT)) {
        let kinds = kinds_of_each(alloc, models)?;
        Ok(kinds)
    } else {
        Ok(None)
    }
}

fn kinds_of_each(alloc: Global, models: &Trees) -> Result<Option<KindLists>, Memory>
    requires { count (plain_all models.now) ≤ 64 }
    ensures { IfOk result (λ kinds. kinds ≡ each_of (kinds_of_model (plain_all models.now))
        (plain_all models.now)) }
{
    let mut lists = Vec::new(alloc);
    let mut left = models;
    'models: while let Trees::More(first, rest) = left {
        let Some(kinds) = kinds_of_model(alloc, models, first)? else {
            return Ok(None);
        };
        lists.push(kinds)?;
        left = rest;
    }
    Ok(Some(KindLists::from_vec(lists)))
}

fn kinds_of_model(alloc: Global, models: &Trees, tree: &Tree) -> Result<Option<Kinds>, Memory>
    requires { count (plain_all models.now) ≤ 64 }
    ensures { IfOk result (λ kinds. kinds ≡ kinds_of_model (plain_all models.now)
        (plain tree.now)) }
{
    match tail_of(tree, b"model") {
        Some(parts) => {
            let kinds = kinds_of_parts(alloc, models, parts)?;
            Ok(kinds)
        }
        None => Ok(None),
    }
}

fn kinds_of_parts(alloc: Global, models: &Trees, parts: &Trees) -> Result<Option<Kinds>, Memory>
    requires { count (plain_all models.now) ≤ 64 }
    ensures { IfOk result (λ kinds. kinds ≡ kinds_of_parts (plain_all models.now)
        (plain_all parts.now)) }
{
    let Trees::More(name, rest) = parts else {
        return Ok(None);
    };
    if is_named(name) {
        let kinds = kinds_of_lists(alloc, models, behind_nested(rest))?;
        Ok(kinds)
    } else {
        Ok(None)
    }
}

fn kinds_of_lists(alloc: Global, models: &Trees, lists: &Trees) -> Result<Option<Kinds>, Memory>
    requires { count (plain_all models.now) ≤ 64 }
    ensures { IfOk result (λ kinds. kinds ≡ kinds_of_lists (plain_all models.now)
        (plain_all lists.now)) }
{
    let Trees::More(fields, rest) = lists else {
        return Ok(None);
    };
    let Trees::More(groups, rest) = &**rest else {
        return Ok(None);
    };
    let Trees::End = &**rest else {
        return Ok(None);
    };
    if have_groups(groups) {
        let kinds = kinds_of_fields(alloc, models, fields)?;
        Ok(kinds)
    } else {
        Ok(None)
    }
}

fn kinds_of_fields(alloc: Global, models: &Trees, tree: &Tree) -> Result<Option<Kinds>, Memory>
    requires { count (plain_all models.now) ≤ 64 }
    ensures { IfOk result (λ kinds. kinds ≡ kinds_of_trees (plain_all models.now)
        (plain tree.now)) }
{
    match tail_of(tree, b"fields") {
        Some(fields) => {
            let kinds = kind_of_each(alloc, models, fields)?;
            Ok(kinds)
        }
        None => Ok(None),
    }
}

fn kind_of_each(alloc: Global, models: &Trees, fields: &Trees) -> Result<Option<Kinds>, Memory>
    requires { count (plain_all models.now) ≤ 64 }
    ensures { IfOk result (λ kinds. kinds ≡ each_of (kind_of_field (plain_all models.now))
        (plain_all fields.now)) }
{
    let mut kinds = Vec::new(alloc);
    let mut left = fields;
    'fields: while let Trees::More(first, rest) = left {
        let Some(kind) = kind_of_field(models, first) else {
            return Ok(None);
        };
        kinds.push(kind)?;
        left = rest;
    }
    Ok(Some(Kinds::from_vec(kinds)))
}

fn kind_of_field(models: &Trees, tree: &Tree) -> Option<Kind>
    requires { count (plain_all models.now) ≤ 64 }
    ensures { result ≡ kind_of_field (plain_all models.now) (plain tree.now) }
{
    let Tree::List(Trees::More(name, rest)) = tree else {
        return None;
    };
    let Trees::More(kind, rest) = &**rest else {
        return None;
    };
    let Trees::End = &**rest else {
        return None;
    };
    if is_named(name) {
        kind_of(models, kind)
    } else {
        None
    }
}

fn kind_of(models: &Trees, tree: &Tree) -> Option<Kind>
    requires { count (plain_all models.now) ≤ 64 }
    ensures { result ≡ kind_of_tree (plain_all models.now) (plain tree.now) }
{
    match tree {
        Tree::Atom(word) => plain_kind(word.as_str()),
        _ => match tail_of(tree, b"ref") {
            Some(trees) => reference(models, trees),
            None => None,
        },
    }
}

fn plain_kind(word: &str) -> Option<Kind>
    ensures { result ≡ plain_kind word.now }
{
    if word == "int" {
        Some(Kind::Int)
    } else if word == "text" {
        Some(Kind::Text)
    } else if word == "bool" {
        Some(Kind::Bool)
    } else {
        None
    }
}

fn reference(models: &Trees, trees: &Trees) -> Option<Kind>
    requires { count (plain_all models.now) ≤ 64 }
    ensures { result ≡ reference_kind (plain_all models.now) (plain_all trees.now) }
{
    let Trees::More(name, rest) = trees else {
        return None;
    };
    let Trees::End = &**rest else {
        return None;
    };
    match place_named(models, name) {
        Some(place) => Some(Kind::Ref(place)),
        None => None,
    }
}

fn place_named(models: &Trees, name: &Tree) -> Option<u8>
    requires { count (plain_all models.now) ≤ 64 }
    ensures { result ≡ place_named (plain_all models.now) (plain name.now) }
{
    match name {
        Tree::Atom(name) => place_of(models, name.as_bytes()),
        Tree::Text(_) => None,
        Tree::List(_) => None,
    }
}

fn place_of(models: &Trees, name: &[u8]) -> Option<u8>
    requires { count (plain_all models.now) ≤ 64 }
    ensures { result ≡ place_from 0 name.now (plain_all models.now) }
{
    let mut place: u8 = 0;
    let mut left = models;
    'models: while let Trees::More(first, rest) = left {
        if begins_with(tail_of(first, b"model"), name) {
            return Some(place);
        }
        place += 1;
        left = rest;
    }
    None
}

fn begins_with(parts: Option<&Trees>, name: &[u8]) -> bool
    ensures { result ≡ begins_with_name name.now (option_map (λ ts. plain_all ts.now) parts.entry) }
{
    match parts {
        Some(Trees::More(first, _)) => is_word(first, name),
        _ => false,
    }
}

fn have_groups(tree: &Tree) -> bool
    ensures { result ≡ have_groups (tail_of (codes "groups") (plain tree.now)) }
{
    match tail_of(tree, b"groups") {
        Some(groups) => are_groups(groups),
        None => false,
    }
}

fn are_groups(groups: &Trees) -> bool
    ensures { result ≡ are_group_trees (plain_all groups.now) }
{
    let mut left = groups;
    'groups: while let Trees::More(first, rest) = left {
        if !is_group(first) {
            return false;
        }
        left = rest;
    }
    true
}

fn is_group(tree: &Tree) -> bool
    ensures { result ≡ is_group (plain tree.now) }
{
    match tree {
        Tree::Atom(word) => word.as_bytes() == b"hides".as_slice(),
        Tree::Text(_) => false,
        Tree::List(names) => are_named(names),
    }
}

fn are_named(trees: &Trees) -> bool
    ensures { result ≡ are_name_trees (plain_all trees.now) }
{
    let mut left = trees;
    'names: while let Trees::More(first, rest) = left {
        if !is_named(first) {
            return false;
        }
        left = rest;
    }
    true
}

fn is_named(tree: &Tree) -> bool
    ensures { result ≡ is_name_tree (plain tree.now) }
{
    match tree {
        Tree::Atom(name) => is_name(name.as_bytes()),
        _ => false,
    }
}
