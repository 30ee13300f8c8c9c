ghost use Rattle.std.specs.Prelude.{◌≡◌, ◌<◌, ◌^◌, ℕ, List, length, IfOk, OnOk};
ghost use Rattle.jac_lang.specs.Mirror.{page_of_view, pages_of};
ghost use Rattle.jac_route.specs.Firsts.{with_first, with_view_before, firsts_from, firsts_at, first_of_verb};

use jac_lang::{Verb, View};
use jac_value::{Memory, Txt};
use std::alloc::Global;
use std::collections::BTreeMap;

/// The numbers of the first views of a pattern: of any method, of GET and of POST.
#[derive(Clone, Copy)]
pub(crate) struct FirstViews {
    pub any: Option<u32>,
    pub get: Option<u32>,
    pub post: Option<u32>,
}

/// The first views of each pattern.
pub(crate) fn firsts_of(alloc: Global, views: &[View]) -> Result<BTreeMap<Txt, FirstViews>, Memory>
    requires few { length views.now < 2 ^ 32 }
    ensures { IfOk result (λ firsts. (pattern : List ℕ) →
        firsts_at firsts pattern ≡ firsts_from 0 (pages_of views.now) pattern) }
{
    let mut firsts = BTreeMap::new(alloc);
    let mut left = views;
    'views: while let Some((view, before)) = left.split_last() {
        put_first(alloc, before.len() as u32, view, &mut firsts)?;
        left = before;
    }
    Ok(firsts)
}

// Puts the view with this number before all that the map has.
fn put_first(
    alloc: Global,
    number: u32,
    view: &View,
    firsts: &mut BTreeMap<Txt, FirstViews>,
) -> Result<(), Memory>
    ensures { OnOk result ((pattern : List ℕ) → firsts_at firsts.new pattern
        ≡ with_view_before number (page_of_view view.now) pattern
        (firsts_at firsts.old pattern)) }
{
    let first = with_first(number, view.method, first_views(firsts, &view.path));
    let pattern = view.path.copy(alloc)?;
    firsts.insert(pattern, first)?;
    Ok(())
}

fn with_first(number: u32, verb: Verb, first: FirstViews) -> FirstViews
    ensures { result ≡ with_first number verb first }
{
    match verb {
        Verb::Get => FirstViews {
            any: Some(number),
            get: Some(number),
            post: first.post,
        },
        Verb::Post => FirstViews {
            any: Some(number),
            get: first.get,
            post: Some(number),
        },
    }
}

/// The first views that the map has for a pattern.
pub(crate) fn first_views(firsts: &BTreeMap<Txt, FirstViews>, pattern: &Txt) -> FirstViews
    ensures { result ≡ firsts_at firsts.now pattern.now }
{
    match firsts.get(pattern) {
        Some(first) => *first,
        None => FirstViews {
            any: None,
            get: None,
            post: None,
        },
    }
}

/// The first view with this method.
pub(crate) fn first_of_verb(first: FirstViews, verb: Verb) -> Option<u32>
    ensures { result ≡ first_of_verb verb first }
{
    match verb {
        Verb::Get => first.get,
        Verb::Post => first.post,
    }
}
