ghost use Rattle.std.specs.Prelude.{◌≡◌, ◌<◌, ◌≤◌, ◌^◌, [], Some, None, IfOk, IfErr, IsTrue, length, codes};
ghost use Rattle.jac_lang.specs.Mirror.{entities_of, pages_of, application_of};
ghost use Rattle.jac_lang.specs.Written.{IsWritten};
ghost use Rattle.jac_tree.specs.Mirror.{plain, plain_all};
ghost use Rattle.jac_forms.specs.Applications.{application_in_tree, application_in_trees, application_of_items, application_of_tree, headed_count, is_headed, items, items_in_trees, page_in_tree, viewer_in_tree};
ghost use Rattle.jac_forms.specs.Names.{each_in_trees};
ghost use Rattle.jac_forms.specs.Places.{path_of};
ghost use Rattle.jac_forms.specs.Reads.{got, refused};
ghost use Rattle.jac_forms.specs.Refusal.{refuses};

use crate::fields::read_only_name;
use crate::models::read_model;
use crate::names::{next_count, next_number};
use crate::place::Place;
use crate::views::read_view;
use crate::{FormFault, Want, What};
use jac_lang::{App, Models, Views};
use jac_tree::{Tree, Trees, is_word, tail_of};
use jac_value::{Memory, Txt};
use std::alloc::Global;

// The models and the views of an application.
#[derive(Drop)]
struct Items {
    models: Models,
    views: Views,
}

/// The application that a tree represents, or the tree's first fault. A list of 2^32 trees or more,
/// and so an application with as many views, gives `FormFault::Memory`.
pub fn app_of(alloc: Global, tree: &Tree) -> Result<App, FormFault>
    ensures value { IfOk result (λ a. application_of_tree (plain tree.now)
        ≡ Some (application_of a)) }
    ensures written { IfOk result (λ a. IsWritten (application_of a)) }
    ensures none { IfErr result (λ f. IsTrue (refuses f) → application_of_tree (plain tree.now)
        ≡ None) }
    ensures fault { IfErr result (λ f. IsTrue (refuses f) → application_in_tree [] (plain tree.now)
        ≡ refused f) }
{
    match tail_of(tree, b"app") {
        Some(trees) => {
            let app = read_app(alloc, &Place::Top, trees)?;
            Ok(app)
        }
        None => Err(Place::Top.form(alloc, Want::App)),
    }
}

fn read_app(alloc: Global, place: &Place<'_>, trees: &Trees) -> Result<App, FormFault>
    ensures value { IfOk result (λ a. application_in_trees (path_of place.now) (plain_all trees.now)
        ≡ got (application_of a)) }
    ensures few { IfOk result (λ a. length a.views < 2 ^ 32) }
    ensures fault { IfErr result (λ f. IsTrue (refuses f) → application_in_trees (path_of place.now)
        (plain_all trees.now) ≡ refused f) }
{
    let models = count_models(trees)?;
    if models > 64 {
        return Err(place.too_many(alloc, What::Models, models));
    }
    let app = read_viewer_and_items(alloc, place, trees)?;
    Ok(app)
}

// The number of lists with the head `model`, wherever they are among the trees.
fn count_models(trees: &Trees) -> Result<u64, Memory>
    ensures { IfOk result (λ number. number ≡ headed_count (codes "model") (plain_all trees.now)) }
{
    let mut number: u64 = 0;
    let mut left = trees;
    'trees: while let Trees::More(first, rest) = left {
        if is_headed(first, b"model") {
            number = next_count(number)?;
        }
        left = rest;
    }
    Ok(number)
}

fn is_headed(tree: &Tree, word: &[u8]) -> bool
    ensures { result ≡ is_headed word.now (plain tree.now) }
{
    match tree {
        Tree::List(Trees::More(head, _)) => is_word(head, word),
        _ => false,
    }
}

fn read_viewer_and_items(alloc: Global, place: &Place<'_>, trees: &Trees) -> Result<App, FormFault>
    requires { headed_count (codes "model") (plain_all trees.now) ≤ 64 }
    ensures value { IfOk result (λ a. application_of_items (path_of place.now) (plain_all trees.now)
        ≡ got (application_of a)) }
    ensures few { IfOk result (λ a. length a.views < 2 ^ 32) }
    ensures fault { IfErr result (λ f. IsTrue (refuses f) → application_of_items (path_of place.now)
        (plain_all trees.now) ≡ refused f) }
{
    if let Trees::More(first, rest) = trees {
        if is_headed(first, b"viewer") {
            let viewer = read_viewer(alloc, &place.child(1), first)?;
            let Items { models, views } = read_items(alloc, place, 2, rest)?;
            return Ok(App {
                viewer: Some(viewer),
                models,
                views,
            });
        }
    }
    let Items { models, views } = read_items(alloc, place, 1, trees)?;
    Ok(App {
        viewer: None,
        models,
        views,
    })
}

fn read_viewer(alloc: Global, place: &Place<'_>, tree: &Tree) -> Result<Txt, FormFault>
    ensures value { IfOk result (λ name. viewer_in_tree (path_of place.now) (plain tree.now)
        ≡ got name) }
    ensures fault { IfErr result (λ f. IsTrue (refuses f) → viewer_in_tree (path_of place.now)
        (plain tree.now) ≡ refused f) }
{
    match tail_of(tree, b"viewer") {
        Some(trees) => {
            let name = read_only_name(alloc, place, Want::Item, trees)?;
            Ok(name)
        }
        None => Err(place.form(alloc, Want::Item)),
    }
}

// Reads models and then views, from the child `first` on.
fn read_items(
    alloc: Global,
    place: &Place<'_>,
    first: u32,
    trees: &Trees,
) -> Result<Items, FormFault>
    requires { headed_count (codes "model") (plain_all trees.now) ≤ 64 }
    ensures value { IfOk result (λ is. items_in_trees (path_of place.now) first
        (plain_all trees.now) ≡ got (items (entities_of is.models) (pages_of is.views))) }
    ensures few { IfOk result (λ is. length is.views < 2 ^ 32) }
    ensures fault { IfErr result (λ f. IsTrue (refuses f) → items_in_trees (path_of place.now) first
        (plain_all trees.now) ≡ refused f) }
{
    let mut models = Vec::new(alloc);
    let mut number = first;
    let mut left = trees;
    'models: while let Trees::More(one, rest) = left {
        if !is_headed(one, b"model") {
            let views = read_views(alloc, place, number, left)?;
            return Ok(Items {
                models: Models::from_vec(models),
                views,
            });
        }
        let model = read_model(alloc, &place.child(number), one)?;
        models.push(model)?;
        number = next_number(number)?;
        left = rest;
    }
    Ok(Items {
        models: Models::from_vec(models),
        views: Views::empty(alloc),
    })
}

fn read_views(
    alloc: Global,
    place: &Place<'_>,
    first: u32,
    trees: &Trees,
) -> Result<Views, FormFault>
    ensures value { IfOk result (λ vs. each_in_trees page_in_tree (path_of place.now) first
        (plain_all trees.now) ≡ got (pages_of vs)) }
    ensures few { IfOk result (λ vs. length vs < 2 ^ 32) }
    ensures fault { IfErr result (λ f. IsTrue (refuses f)
        → each_in_trees page_in_tree (path_of place.now) first (plain_all trees.now) ≡ refused f) }
{
    let mut views = Vec::new(alloc);
    let mut number = first;
    let mut left = trees;
    'views: while let Trees::More(one, rest) = left {
        let view = read_view(alloc, &place.child(number), one)?;
        views.push(view)?;
        number = next_number(number)?;
        left = rest;
    }
    Ok(Views::from_vec(views))
}
