ghost use Rattle.std.specs.Prelude.{◌≡◌, ℕ, ◌≤◌, List, length, take, drop, Ok, OnOk};
ghost use Rattle.book.specs.Calls.{Enter, Clear, Write, Print, Nothing, Rules};
ghost use Rattle.book.specs.Faith.{fresh};
ghost use Rattle.book.specs.Statements.{WritesBack, EntersAs};
ghost use Rattle.rack.specs.Racks.{places, came_to, amount, words_out, cells_out, named, OnlyAt};
ghost use Rattle.picture.specs.Pictures.{picture};
ghost use Rattle.tile.specs.Outcomes.{Outcome};

use crate::rack::Rack;
use book::Refusal;
use picture::{BAY, BLANK};
use recipe::Place;
use std::marker::PhantomData;
use table::{PLACE_WEIGHTS, Table};
use tile::{SCRATCH, Tile};
use weight::Written;

/// How many weights a call wants in its memory: eight bays for the places, eight to work in.
pub(crate) const MEMORY: usize = 16 * BAY;

/// The place with a number, if the memory has enough weights.
fn find(weights: usize, place: usize) -> Result<Place, Refusal>
    ensures found { result ≡ named weights place }
    ensures enough { OnOk result (10240 ≤ weights) }
{
    if weights < MEMORY {
        return Err(Refusal::ShortMemory);
    }
    Ok(Place::try_from(place)?)
}

impl<W: Written> Rack<W> {
    /// A fresh rack: every place is blank.
    pub fn new() -> Rack<W>
        ensures { (memory : List W) → places result memory ≡ fresh }
    {
        Rack {
            table: Table::blank(),
            kind: PhantomData,
        }
    }

    /// Puts the body of these words on a place.
    pub fn enter(&mut self, memory: &mut [W], place: usize, words: &[u32]) -> Result<usize, Refusal>
        ensures outcome { Rules W.kind W.writing (places self.old memory.old) (length memory.old) (Enter place words.now) (came_to result Nothing (places self.new memory.new)) }
        ensures beyond { drop 10240 memory.new ≡ drop 10240 memory.old }
        ensures records { OnlyAt place self.old self.new result }
        ensures back { (i : ℕ) → result ≡ Ok i → WritesBack W.kind W.writing (places self.new memory.new) place words.now }
    {
        let place = find(memory.len(), place)?;
        let at = BAY * usize::from(place);
        let bay = &mut memory[at..at + BAY];
        let body = words::read(words, bay)?;
        self.table.put(place, body);
        Ok(0)
    }

    /// Makes a place blank.
    pub fn clear(&mut self, memory: &[W], place: usize) -> Result<usize, Refusal>
        ensures outcome { Rules W.kind W.writing (places self.old memory.now) (length memory.now) (Clear place) (came_to result Nothing (places self.new memory.now)) }
        ensures records { OnlyAt place self.old self.new result }
    {
        let place = find(memory.len(), place)?;
        self.table.put(place, BLANK);
        Ok(0)
    }

    /// Writes the words of a place's body, and answers how many.
    pub fn write(&self, memory: &[W], place: usize, words: &mut [u32]) -> Result<usize, Refusal>
        ensures outcome { Rules W.kind W.writing (places self.now memory.now) (length memory.now) (Write place (length words.old)) (came_to result (words_out result words.new) (places self.now memory.now)) }
        ensures rest { drop (amount result) words.new ≡ drop (amount result) words.old }
        ensures back { (i : ℕ) → result ≡ Ok i → EntersAs W.kind W.writing (places self.now memory.now) place (take i words.new) }
    {
        let place = find(memory.len(), place)?;
        Ok(words::write(self.table.body(place, memory), words)?)
    }

    /// Prints the cells of a tile of a place, and answers how many.
    pub fn print(
        &self,
        memory: &mut [W],
        place: usize,
        tile: Tile,
        cells: &mut [W],
    ) -> Result<usize, Refusal>
        ensures outcome { Rules W.kind W.writing (places self.now memory.old) (length memory.old) (Print place tile.depth tile.digits tile.prefix (length cells.old)) (came_to result (cells_out result cells.new) (places self.now memory.new)) }
        ensures rest { drop (amount result) cells.new ≡ drop (amount result) cells.old }
        ensures beyond { drop 10240 memory.new ≡ drop 10240 memory.old }
    {
        let place = find(memory.len(), place)?;
        let (bays, work) = memory.split_at_mut(PLACE_WEIGHTS);
        Ok(self.print_tile(place, bays, tile, &mut work[0..SCRATCH], cells)?)
    }

    /// Prints the cells of a tile of a place, with weights to work in.
    // The lengths are clauses, and no array types: memory is lent as one slice and cut while the program runs.
    fn print_tile(
        &self,
        place: Place,
        bays: &[W],
        tile: Tile,
        scratch: &mut [W],
        cells: &mut [W],
    ) -> Result<usize, tile::Fault>
        requires bays { 5120 ≤ length bays.now }
        requires scratch { length scratch.old ≡ 2688 }
        ensures { Outcome (picture W.kind (places self.now bays.now place)) tile.depth tile.digits tile.prefix cells.old cells.new result }
    {
        tile::print(self.table.body(place, bays), tile, scratch, cells)
    }
}
