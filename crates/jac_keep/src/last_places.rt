use crate::places::{Place, place_near};
use jac_rows::Row;
use jac_value::{Id, id_model};

/// For each model, the place at which a record was found last.
#[derive(Debug, Drop)]
pub struct LastPlaces {
    places: [Place; 64],
}

impl LastPlaces {
    pub fn none() -> LastPlaces {
        LastPlaces {
            places: [Place { start: 0, count: 0 }; 64],
        }
    }

    /// The place of a record's rows among those of its model, if these are by rising id. It is
    /// sought near the last place first.
    pub fn find(&mut self, rows: &[Row], id: Id) -> Place {
        match self.places.get_mut(usize::from(id_model(id))) {
            Some(place) => {
                *place = place_near(rows, id, *place);
                *place
            }
            None => Place { start: 0, count: 0 },
        }
    }
}
