use jac_keep::Place;
use jac_value::{Id, id_model};

/// A record, and the place of its rows.
#[derive(Clone, Copy)]
struct RecentPlace {
    id: Id,
    place: Place,
}

/// The place of the last record of each of four models. Models share it if their numbers leave the
/// same remainder by 4.
#[derive(Drop)]
pub(crate) struct RecentPlaces {
    last: [RecentPlace; 4],
}

impl RecentPlaces {
    pub fn none() -> RecentPlaces {
        let nowhere = Place { start: 0, count: 0 };
        RecentPlaces {
            last: [RecentPlace {
                id: Id(0),
                place: nowhere,
            }; 4],
        }
    }

    /// The place of the record, if it is the last one.
    pub fn place_of(&self, id: Id) -> Option<Place> {
        match self.last.get(index_of(id)) {
            Some(recent) => place_if(recent, id),
            None => None,
        }
    }

    pub fn keep(&mut self, id: Id, place: Place) {
        if let Some(last) = self.last.get_mut(index_of(id)) {
            *last = RecentPlace { id, place };
        }
    }
}

fn place_if(recent: &RecentPlace, id: Id) -> Option<Place> {
    if recent.id == id {
        Some(recent.place)
    } else {
        None
    }
}

fn index_of(id: Id) -> usize {
    usize::from(id_model(id) % 4)
}
