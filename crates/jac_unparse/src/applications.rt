ghost use Rattle.std.specs.Prelude.{◌≡◌, [], IfOk, codes};
ghost use Rattle.std.specs.Option.{option_copied};
ghost use Rattle.jac_lang.specs.Mirror.{application_of, assigned_of, entities_of, entity_of, field_group_of, groups_of, page_of_view, pages_of};
ghost use Rattle.jac_lang.specs.Syntax.{Application};
ghost use Rattle.jac_tree.specs.Mirror.{plain, plain_all};
ghost use Rattle.jac_tree.specs.Plain.{PlainTree};
ghost use Rattle.jac_forms.specs.Applications.{application_in_tree};
ghost use Rattle.jac_forms.specs.Reads.{got};
ghost use Rattle.jac_unparse.specs.TreeOf.{IsReadable, form, method_word, one, tree_of_application, tree_of_entity, tree_of_group, tree_of_kind, tree_of_page, trees_of_fields, trees_of_groups, models_before, nested_before, tree_of_guarding, trees_of_pages, trees_of_parts, viewer_before};

use crate::expressions::expr_tree;
use crate::shapes::{form, form_of_one, form_of_two, more, name_tree, pair, text_tree, word_tree};
use crate::statements::{assigned_trees, stmt_trees};
use jac_lang::{App, Field, Group, KindName, ModelDef, Publics, Verb, View};
use jac_tree::{Tree, Trees};
use jac_value::{Memory, Txt};
use std::alloc::Global;

/// The tree of an application. If the application is a result of `app_of`, `app_of` gives it for
/// this tree. The block of an expanded template has no form of its own. It is written as a list
/// that begins with `block`, which `app_of` refuses.
pub fn tree_of(alloc: Global, app: &App) -> Result<Tree, Memory>
    ensures tree { IfOk result (λ t. plain t ≡ tree_of_application (application_of app.now)) }
    ensures read { IfOk result (λ t. IsReadable (application_of app.now)
        → application_in_tree [] (plain t) ≡ got (application_of app.now)) }
{
    let tree = app_tree(alloc, app)?;
    Ok(tree)
}

/// A law: if some tree is read as an application, the tree that the application is written as is
/// read as the same one.
pub fn written_applications_are_read()
    ensures { (a : Application) → IsReadable a → application_in_tree [] (tree_of_application a)
        ≡ got a }
{}

fn app_tree(alloc: Global, app: &App) -> Result<Tree, Memory>
    ensures { IfOk result (λ t. plain t ≡ tree_of_application (application_of app.now)) }
{
    let views = view_trees(alloc, app.views.as_slice())?;
    let items = model_trees(alloc, app.models.as_slice(), views)?;
    let items = with_viewer(alloc, app.viewer.as_ref(), items)?;
    form(alloc, "app", items)
}

fn with_viewer(alloc: Global, viewer: Option<&Txt>, items: Trees) -> Result<Trees, Memory>
    ensures { IfOk result (λ ts. plain_all ts ≡ viewer_before (option_copied viewer.entry)
        (plain_all items)) }
{
    match viewer {
        None => Ok(items),
        Some(viewer) => {
            let viewer = viewer_tree(alloc, viewer)?;
            more(alloc, viewer, items)
        }
    }
}

fn viewer_tree(alloc: Global, viewer: &Txt) -> Result<Tree, Memory>
    ensures { IfOk result (λ t. plain t ≡ form (codes "viewer") (one (PlainTree.atom viewer.now))) }
{
    let viewer = name_tree(alloc, viewer)?;
    form_of_one(alloc, "viewer", viewer)
}

// The trees of the models, followed by the given trees.
fn model_trees(alloc: Global, models: &[ModelDef], rest: Trees) -> Result<Trees, Memory>
    ensures { IfOk result (λ ts. plain_all ts ≡ models_before (entities_of models.now)
        (plain_all rest)) }
{
    let mut back = Trees::End;
    'models: for model in models {
        let tree = model_tree(alloc, model)?;
        back = more(alloc, tree, back)?;
    }
    Ok(back.before(rest))
}

fn model_tree(alloc: Global, model: &ModelDef) -> Result<Tree, Memory>
    ensures { IfOk result (λ t. plain t ≡ tree_of_entity (entity_of model.now)) }
{
    let name = name_tree(alloc, &model.name)?;
    let parts = part_trees(alloc, model)?;
    let rest = nested_before(alloc, model.nested, parts)?;
    let rest = more(alloc, name, rest)?;
    form(alloc, "model", rest)
}

fn part_trees(alloc: Global, model: &ModelDef) -> Result<Trees, Memory>
    ensures { IfOk result (λ ts. plain_all ts ≡ trees_of_parts (entity_of model.now)) }
{
    let fields = form(
        alloc,
        "fields",
        field_trees(alloc, model.fields.as_slice())?,
    )?;
    let groups = group_trees(alloc, model.groups.as_slice())?;
    more(alloc, fields, groups)
}

fn nested_before(alloc: Global, nested: bool, rest: Trees) -> Result<Trees, Memory>
    ensures { IfOk result (λ ts. plain_all ts ≡ nested_before nested (plain_all rest)) }
{
    if nested {
        let word = word_tree(alloc, "nested")?;
        more(alloc, word, rest)
    } else {
        Ok(rest)
    }
}

fn field_trees(alloc: Global, fields: &[Field]) -> Result<Trees, Memory>
    ensures { IfOk result (λ ts. plain_all ts ≡ trees_of_fields fields.now) }
{
    let mut back = Trees::End;
    'fields: for field in fields {
        let kind = kind_tree(alloc, &field.kind)?;
        let tree = pair(alloc, &field.name, kind)?;
        back = more(alloc, tree, back)?;
    }
    Ok(back.before(Trees::End))
}

fn kind_tree(alloc: Global, kind: &KindName) -> Result<Tree, Memory>
    ensures { IfOk result (λ t. plain t ≡ tree_of_kind kind.now) }
{
    match kind {
        KindName::Int => word_tree(alloc, "int"),
        KindName::Text => word_tree(alloc, "text"),
        KindName::Bool => word_tree(alloc, "bool"),
        KindName::Ref(model) => {
            let model = name_tree(alloc, model)?;
            form_of_one(alloc, "ref", model)
        }
    }
}

fn group_trees(alloc: Global, groups: &[Group]) -> Result<Trees, Memory>
    ensures { IfOk result (λ ts. plain_all ts ≡ trees_of_groups (groups_of groups.now)) }
{
    let mut back = Trees::End;
    'groups: for group in groups {
        let tree = group_tree(alloc, group)?;
        back = more(alloc, tree, back)?;
    }
    Ok(back.before(Trees::End))
}

fn group_tree(alloc: Global, group: &Group) -> Result<Tree, Memory>
    ensures { IfOk result (λ t. plain t ≡ tree_of_group (field_group_of group.now)) }
{
    let guards = guarding_tree(alloc, group.hides, &group.guards)?;
    let policy = expr_tree(alloc, &group.policy)?;
    let policy = form_of_one(alloc, "policy", policy)?;
    form_of_two(alloc, "group", guards, policy)
}

fn guarding_tree(alloc: Global, hides: bool, guards: &Publics) -> Result<Tree, Memory>
    ensures { IfOk result (λ t. plain t ≡ tree_of_guarding hides (assigned_of guards.now)) }
{
    if hides {
        word_tree(alloc, "hides")
    } else {
        let guards = assigned_trees(alloc, guards)?;
        form(alloc, "guards", guards)
    }
}

fn view_trees(alloc: Global, views: &[View]) -> Result<Trees, Memory>
    ensures { IfOk result (λ ts. plain_all ts ≡ trees_of_pages (pages_of views.now)) }
{
    let mut back = Trees::End;
    'views: for view in views {
        let tree = view_tree(alloc, view)?;
        back = more(alloc, tree, back)?;
    }
    Ok(back.before(Trees::End))
}

fn view_tree(alloc: Global, view: &View) -> Result<Tree, Memory>
    ensures { IfOk result (λ t. plain t ≡ tree_of_page (page_of_view view.now)) }
{
    let method = word_tree(alloc, method_word(view.method))?;
    let path = text_tree(alloc, &view.path)?;
    let params = form(alloc, "params", field_trees(alloc, view.params.as_slice())?)?;
    let body = stmt_trees(alloc, &view.body)?;
    let rest = more(alloc, params, body)?;
    let rest = more(alloc, path, rest)?;
    let rest = more(alloc, method, rest)?;
    form(alloc, "view", rest)
}

fn method_word(method: Verb) -> &'static str
    ensures { result.now ≡ method_word method }
{
    match method {
        Verb::Get => "get",
        Verb::Post => "post",
    }
}
