ghost use Rattle.std.specs.Prelude.{◌≡◌, IfOk, IfErr, IsTrue};
ghost use Rattle.jac_lang.specs.Mirror.{page_of_view};
ghost use Rattle.jac_tree.specs.Mirror.{plain, plain_all};
ghost use Rattle.jac_forms.specs.Applications.{method_in_tree, page_in_tree, page_in_trees, path_in_tree};
ghost use Rattle.jac_forms.specs.Places.{path_of};
ghost use Rattle.jac_forms.specs.Reads.{got, refused};
ghost use Rattle.jac_forms.specs.Refusal.{refuses};

use crate::fields::read_params;
use crate::place::Place;
use crate::sites::count_sites;
use crate::statements::read_stmts;
use crate::{FormFault, Want, What};
use jac_lang::{Verb, View};
use jac_tree::{Tree, Trees, is_word, tail_of};
use jac_value::{Txt, is_path};
use std::alloc::Global;

pub fn read_view(alloc: Global, place: &Place<'_>, tree: &Tree) -> Result<View, FormFault>
    ensures value { IfOk result (λ v. page_in_tree (path_of place.now) (plain tree.now)
        ≡ got (page_of_view v)) }
    ensures fault { IfErr result (λ f. IsTrue (refuses f) → page_in_tree (path_of place.now)
        (plain tree.now) ≡ refused f) }
{
    match tail_of(tree, b"view") {
        Some(parts) => {
            let view = read_parts(alloc, place, parts)?;
            Ok(view)
        }
        None => Err(place.form(alloc, Want::Item)),
    }
}

// Reads the parts of a view. The number of sites is tested after the statements are read, so a
// fault inside of them comes first.
fn read_parts(alloc: Global, place: &Place<'_>, parts: &Trees) -> Result<View, FormFault>
    ensures value { IfOk result (λ v. page_in_trees (path_of place.now) (plain_all parts.now)
        ≡ got (page_of_view v)) }
    ensures fault { IfErr result (λ f. IsTrue (refuses f) → page_in_trees (path_of place.now)
        (plain_all parts.now) ≡ refused f) }
{
    let Trees::More(method, rest) = parts else {
        return Err(place.form(alloc, Want::Item));
    };
    let Trees::More(path, rest) = &**rest else {
        return Err(place.form(alloc, Want::Item));
    };
    let Trees::More(params, rest) = &**rest else {
        return Err(place.form(alloc, Want::Item));
    };
    let method = read_method(alloc, &place.child(1), method)?;
    let path = read_path(alloc, &place.child(2), path)?;
    let params = read_params(alloc, &place.child(3), params)?;
    let mut sites = 0;
    let body = read_stmts(alloc, place, 4, &mut sites, rest)?;
    if sites > 64 {
        return Err(place.too_many(alloc, What::Sites, count_sites(&body)?));
    }
    Ok(View {
        method,
        path,
        params,
        body,
    })
}

fn read_method(alloc: Global, place: &Place<'_>, tree: &Tree) -> Result<Verb, FormFault>
    ensures value { IfOk result (λ v. method_in_tree (path_of place.now) (plain tree.now) ≡ got v) }
    ensures fault { IfErr result (λ f. IsTrue (refuses f) → method_in_tree (path_of place.now)
        (plain tree.now) ≡ refused f) }
{
    if is_word(tree, b"get") {
        Ok(Verb::Get)
    } else if is_word(tree, b"post") {
        Ok(Verb::Post)
    } else {
        Err(place.form(alloc, Want::Method))
    }
}

fn read_path(alloc: Global, place: &Place<'_>, tree: &Tree) -> Result<Txt, FormFault>
    ensures value { IfOk result (λ path. path_in_tree (path_of place.now) (plain tree.now)
        ≡ got path) }
    ensures fault { IfErr result (λ f. IsTrue (refuses f) → path_in_tree (path_of place.now)
        (plain tree.now) ≡ refused f) }
{
    match tree {
        Tree::Text(text) => {
            if is_path(text.as_bytes()) {
                let path = text.copy(alloc)?;
                Ok(path)
            } else {
                Err(place.form(alloc, Want::Path))
            }
        }
        _ => Err(place.form(alloc, Want::Path)),
    }
}
