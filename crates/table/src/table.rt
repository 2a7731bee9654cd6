ghost use Rattle.std.specs.Prelude.{◌≡◌, slice_set};
ghost use Rattle.recipe.specs.Evaluations as recipe;
ghost use Rattle.recipe.specs.Places.{number};
ghost use Rattle.table.specs.Tables.{record_of, Blank};

use picture::{BLANK, Record};
use recipe::Place;

/// How many places there are.
pub const PLACES: usize = 8;

/// The records of the eight places. Their weights lie in memory that the caller lends.
// It has no ghost field: a table is plain, and what holds of its records is a clause of its methods.
#[derive(Clone, Copy)]
pub struct Table {
    pub(crate) records: [Record; PLACES],
}

impl Table {
    /// Eight blank places.
    pub fn blank() -> Table
        ensures { Blank result }
    {
        Table {
            records: [BLANK; PLACES],
        }
    }

    /// The record of a place.
    pub fn record(&self, place: Place) -> &Record
        ensures { result.now ≡ record_of self.now place }
    {
        &self.records[usize::from(place)]
    }

    /// Writes the record of a place whole.
    pub fn put(&mut self, place: Place, new: Record)
        ensures records { self.new.records ≡ slice_set self.old.records (number place) new }
        ensures places { record_of self.new ≡ recipe.put place new (record_of self.old) }
    {
        overwrite(&mut self.records[usize::from(place)], new);
    }
}

/// Writes a record that is lent.
fn overwrite(old: &mut Record, new: Record)
    ensures { old.new ≡ new }
{
    *old = new;
}
