ghost use Rattle.std.specs.Prelude.{◌≡◌, ◌<◌, ◌⊎◌, ◌++◌, ◌∷◌, [], length, Some, IfOk, IfSome, OnOk};
ghost use Rattle.std.specs.List.{position};
ghost use Rattle.jac_policy_cache.specs.ViewerCache.{Invalidates};
ghost use Rattle.jac_policy_cache.specs.Affected.{is_same_viewer};
ghost use Rattle.jac_viewer_caches.specs.CacheEntries.{AreInvalidated, IsOneOf, entry_of};

use jac_policy_cache::{Invalidation, ViewerCache};
use jac_value::{Id, Memory};
use std::alloc::Global;
use std::marker::Model;
use std::mem::replace;

/// The number of viewers whose caches are kept.
const VIEWERS: usize = 64;

/// The number of labels with cached results that all caches together may have.
const ASKED: usize = 1 << 18;

/// A viewer's cache.
#[derive(Drop)]
pub struct ViewerEntry {
    /// The viewer. `None` means requests without a viewer.
    pub viewer: Option<Id>,
    pub cache: ViewerCache,
}

/// The caches of at most 64 viewers, one for each.
#[derive(Drop)]
pub struct ViewerCaches {
    viewer_caches: Vec<ViewerEntry>,
    /// The number of caches that were put in. It determines which cache is dropped.
    puts: usize,
}

impl Model for ViewerCaches {
    ghost use Rattle.std.specs.Prelude.{List};
    ghost use Rattle.std.specs.Coded.{codes};
    ghost use Rattle.jac_viewer_caches.specs.contracts.viewer_caches.ViewerEntry as item;
    ghost use Rattle.jac_viewer_caches.specs.declared.viewer_caches.ViewerEntry.{ViewerEntry as Item};

    ghost Value = { List Item };

    ghost coded = { Prim.hlevel (codes, item.the_row.coded) };

    ghost view = { λ s. s.viewer_caches.items };
}

impl ViewerCaches {
    /// No caches.
    pub fn none(alloc: Global) -> ViewerCaches
        ensures { result ≡ [] }
    {
        ViewerCaches {
            viewer_caches: Vec::new(alloc),
            puts: 0,
        }
    }

    /// Takes out the cache of the viewer, if there is one.
    pub fn take(&mut self, viewer: &Option<Id>) -> Option<ViewerCache>
        ensures taken { IfSome result (λ cache. IsOneOf (entry_of viewer.now cache) self.old) }
        ensures left { (s : ViewerEntry) → IsOneOf s self.new → IsOneOf s self.old }
    {
        take_from(&mut self.viewer_caches, viewer)
    }

    /// Keeps the cache for the viewer, whose cache was taken out before. Beyond 64 viewers, and
    /// beyond 2^18 labels with cached results in all caches, others are dropped one by one in a
    /// pseudorandom order until there is room. If more viewers take turns than there is room for,
    /// some of them then find their caches. Dropping the least recently used cache would always
    /// drop the one that is needed next. The cache itself is dropped if it is overgrown, or if this
    /// is out of memory.
    pub fn put(&mut self, viewer: Option<Id>, cache: ViewerCache)
        ensures { (s : ViewerEntry) → IsOneOf s self.new
            → (s ≡ entry_of viewer cache) ⊎ IsOneOf s self.old }
    {
        if cache.is_overgrown() {
            return;
        }
        self.puts = self.puts.wrapping_add(1);
        put_in(
            &mut self.viewer_caches,
            ViewerEntry { viewer, cache },
            self.puts,
        );
    }

    /// Marks as stale, for each viewer, what the change may have affected. Caches that are
    /// overgrown then are dropped. If this is out of memory, all caches are.
    pub fn invalidate(&mut self, alloc: Global, invalidation: &Invalidation)
        ensures { AreInvalidated invalidation.now self.old self.new }
    {
        invalidate_in(alloc, &mut self.viewer_caches, invalidation);
    }

    /// Drops all caches.
    pub fn forget(&mut self)
        ensures { self.new ≡ [] }
    {
        self.viewer_caches.clear();
    }
}

fn take_from(viewer_caches: &mut Vec<ViewerEntry>, viewer: &Option<Id>) -> Option<ViewerCache>
    ensures taken { IfSome result (λ cache.
        IsOneOf (entry_of viewer.now cache) viewer_caches.old.items) }
    ensures left { (s : ViewerEntry) → IsOneOf s viewer_caches.new.items → IsOneOf s
        viewer_caches.old.items }
{
    let place = place_of(viewer_caches.as_slice(), viewer);
    match place {
        Some(place) => {
            let ViewerEntry { viewer: _, cache } = viewer_caches.remove(place);
            Some(cache)
        }
        None => None,
    }
}

fn place_of(viewer_caches: &[ViewerEntry], viewer: &Option<Id>) -> Option<usize>
    ensures { result ≡ position (λ (s : ViewerEntry). is_same_viewer s.viewer viewer.now)
        viewer_caches.now }
{
    viewer_caches.iter().position(|viewer_entry| is_same_viewer(&viewer_entry.viewer, viewer))
}

fn is_same_viewer(one: &Option<Id>, other: &Option<Id>) -> bool
    ensures { result ≡ is_same_viewer one.now other.now }
{
    match (one, other) {
        (Some(one), Some(other)) => one == other,
        (None, None) => true,
        _ => false,
    }
}

fn put_in(viewer_caches: &mut Vec<ViewerEntry>, viewer_entry: ViewerEntry, puts: usize)
    ensures { (s : ViewerEntry) → IsOneOf s viewer_caches.new.items
        → (s ≡ viewer_entry) ⊎ IsOneOf s viewer_caches.old.items }
{
    make_room(viewer_caches, &viewer_entry.cache, puts);
    push(viewer_caches, viewer_entry);
}

// Drops caches, one by one, while there are too many of them or they have too many labels with
// cached results.
fn make_room(viewer_caches: &mut Vec<ViewerEntry>, cache: &ViewerCache, puts: usize)
    ensures { (s : ViewerEntry) → IsOneOf s viewer_caches.new.items → IsOneOf s
        viewer_caches.old.items }
{
    'room: while !viewer_caches.is_empty() && is_full(viewer_caches.as_slice(), cache) {
        drop_one(viewer_caches, spread(puts));
    }
}

fn is_full(viewer_caches: &[ViewerEntry], cache: &ViewerCache) -> bool {
    viewer_caches.len() >= VIEWERS || asked_for(viewer_caches, cache) > ASKED
}

// Drops the cache at this place, modulo the number of caches.
fn drop_one(viewer_caches: &mut Vec<ViewerEntry>, place: usize)
    requires some { 0 < length viewer_caches.old.items }
    ensures fewer { length viewer_caches.new.items < length viewer_caches.old.items }
    ensures left { (s : ViewerEntry) → IsOneOf s viewer_caches.new.items → IsOneOf s
        viewer_caches.old.items }
{
    let place = place % viewer_caches.len();
    viewer_caches.remove(place);
}

// Spreads consecutive numbers far apart (Knuth, multiplicative hashing).
fn spread(number: usize) -> usize {
    number.wrapping_mul(0x9E37_79B9_7F4A_7C15) >> 32
}

// The number of labels with cached results in all of these caches and in this one.
fn asked_for(viewer_caches: &[ViewerEntry], cache: &ViewerCache) -> usize {
    let mut asked = cache.answers.len();
    'viewer_caches: for viewer_entry in viewer_caches {
        asked = asked.saturating_add(viewer_entry.cache.answers.len());
    }
    asked
}

fn push(viewer_caches: &mut Vec<ViewerEntry>, viewer_entry: ViewerEntry)
    ensures { (viewer_caches.new.items ≡ viewer_caches.old.items ++ viewer_entry ∷ [])
        ⊎ (viewer_caches.new.items ≡ viewer_caches.old.items) }
{
    match viewer_caches.push(viewer_entry) {
        Ok(()) => (),
        Err(_) => (),
    }
}

fn invalidate_in(alloc: Global, viewer_caches: &mut Vec<ViewerEntry>, invalidation: &Invalidation)
    ensures { AreInvalidated invalidation.now viewer_caches.old.items viewer_caches.new.items }
{
    let kept = replace(viewer_caches, Vec::new(alloc));
    match invalidated_all(alloc, kept, invalidation) {
        Ok(invalidated) => *viewer_caches = invalidated,
        Err(Memory) => (),
    }
}

fn invalidated_all(
    alloc: Global,
    viewer_caches: Vec<ViewerEntry>,
    invalidation: &Invalidation,
) -> Result<Vec<ViewerEntry>, Memory>
    ensures { IfOk result (λ invalidated. AreInvalidated invalidation.now viewer_caches.items
        invalidated.items) }
{
    let mut left = viewer_caches;
    let mut invalidated = Vec::new(alloc);
    'viewer_caches: while let Some(viewer_entry) = left.pop() {
        let viewer_entry = invalidated_one(alloc, viewer_entry, invalidation)?;
        keep(&mut invalidated, viewer_entry)?;
    }
    Ok(invalidated)
}

fn keep(kept: &mut Vec<ViewerEntry>, viewer_entry: ViewerEntry) -> Result<(), Memory>
    ensures { OnOk result ((kept.new.items ≡ kept.old.items ++ viewer_entry ∷ [])
        ⊎ (kept.new.items ≡ kept.old.items)) }
{
    if viewer_entry.cache.is_overgrown() {
        return Ok(());
    }
    kept.push(viewer_entry)?;
    Ok(())
}

fn invalidated_one(
    alloc: Global,
    viewer_entry: ViewerEntry,
    invalidation: &Invalidation,
) -> Result<ViewerEntry, Memory>
    ensures viewer { IfOk result (λ s. s.viewer ≡ viewer_entry.viewer) }
    ensures cache { IfOk result (λ s. Invalidates invalidation.now viewer_entry.viewer
        viewer_entry.cache s.cache) }
{
    let ViewerEntry { viewer, cache } = viewer_entry;
    let mut cache = cache;
    cache.invalidate(alloc, &viewer, invalidation)?;
    Ok(ViewerEntry { viewer, cache })
}
