//! A reader for each category of the grammar.
ghost use Rattle.std.specs.Prelude.{◌≡◌, ℕ, ◌<◌, ◌≤◌, length, Some, None};
ghost use Rattle.recipe.specs.Trees.{sum, product, part, closed, line};
ghost use Rattle.recipe.specs.Devices.Reading.{left, name_at, OpeningAt, Reads, Opened, Starts, Digits, Whole};

use super::Reader;
use super::nesting::Nesting;
use crate::fault::Fault;
use crate::limits::{MAX_LEVEL, MAX_WAITING};
use crate::place::Place;
use crate::step::Step;
use picture::Quadrant;

/// The byte that opens a part that is not a plain place.
// An enum, since what is read is data.
#[derive(Clone, Copy)]
enum Opening {
    At,
    Bar,
    Caret,
    Round,
    Square,
}

/// How a part that is not a plain place starts: with a step for the part behind, or with a bracket.
#[derive(Clone, Copy)]
enum Start {
    Ahead(Step),
    Bracket,
    Pieces,
}

impl Reader<'_> {
    /// The opening that the next byte is, if it is one.
    fn peek_opening(&self) -> Option<Opening>
        ensures { OpeningAt (left self.now) result }
    {
        match self.peek()? {
            b'@' => Some(Opening::At),
            b'|' => Some(Opening::Bar),
            b'^' => Some(Opening::Caret),
            b'(' => Some(Opening::Round),
            b'[' => Some(Opening::Square),
            _ => None,
        }
    }

    /// The byte that opens a part, inside as many others as `nesting` says.
    fn opening(&mut self, nesting: Nesting) -> Result<Opening, Fault>
        requires { name_at (left self.old) ≡ None }
        ensures { Opened nesting.around self.old self.new result }
    {
        let Some(opening) = self.peek_opening() else {
            return Err(Fault::Grammar(self.pos));
        };
        if nesting.around >= MAX_LEVEL {
            return Err(Fault::Level(self.pos));
        }
        self.pos += 1;
        Ok(opening)
    }

    /// The digit behind a '^'.
    fn digit(&mut self) -> Result<Quadrant, Fault>
        ensures { Digits self.old self.new result }
    {
        let Some(quadrant) = self.peek_quadrant() else {
            return Err(Fault::Grammar(self.pos));
        };
        self.pos += 1;
        Ok(quadrant)
    }

    /// The start of a part that is not a plain place.
    fn start(&mut self, nesting: Nesting) -> Result<Start, Fault>
        requires { name_at (left self.old) ≡ None }
        ensures { Starts nesting.around self.old self.new result }
    {
        match self.opening(nesting)? {
            Opening::At => Ok(Start::Ahead(Step::Turn)),
            Opening::Bar => Ok(Start::Ahead(Step::Mirror)),
            Opening::Caret => {
                let quadrant = self.digit()?;
                Ok(Start::Ahead(Step::Zoom(quadrant)))
            }
            Opening::Round => Ok(Start::Bracket),
            Opening::Square => Ok(Start::Pieces),
        }
    }

    /// A place on a right side, which the next byte names.
    fn name(&mut self, place: Place) -> Result<(), Fault>
        requires named { name_at (left self.old) ≡ Some place }
        ensures { (l : ℕ) → Reads part l self.old self.new result }
    {
        if self.waiting >= MAX_WAITING {
            return Err(Fault::Waiting(self.pos));
        }
        self.pos += 1;
        self.push(Step::Name(place), self.waiting + 1);
        Ok(())
    }

    /// A part: a place, or what starts with one of the opening bytes.
    #[cycle(closed_part_product_sum)]
    fn part(&mut self, nesting: Nesting) -> Result<(), Fault>
        ensures { Reads part nesting.around self.old self.new result }
    {
        if let Some(place) = self.peek_place() {
            return self.name(place);
        }
        let start = self.start(nesting)?;
        let inside = Nesting {
            around: nesting.around + 1,
        };
        match start {
            Start::Ahead(step) => {
                self.part(inside)?;
                self.push(step, self.waiting);
                Ok(())
            }
            Start::Bracket => self.closed(inside, b')'),
            Start::Pieces => {
                self.closed(inside, b',')?;
                self.closed(inside, b',')?;
                self.closed(inside, b',')?;
                self.closed(inside, b']')?;
                self.push(Step::Piece(self.pos - 1), self.waiting - 3);
                Ok(())
            }
        }
    }

    /// A product: parts joined by '*', carried out from the left.
    // Beside `sum`, and not one function with it: each category of the grammar has its reader and its contract.
    #[cycle(closed_part_product_sum)]
    fn product(&mut self, nesting: Nesting) -> Result<(), Fault>
        ensures { Reads product nesting.around self.old self.new result }
    {
        self.part(nesting)?;
        // As long as the sign stands there.
        while self.take(b'*') {
            let mark = self.pos - 1;
            self.part(nesting)?;
            self.push(Step::Multiply(mark), self.waiting - 1);
        }
        Ok(())
    }

    /// A sum: products joined by '+', carried out from the left.
    #[cycle(closed_part_product_sum)]
    fn sum(&mut self, nesting: Nesting) -> Result<(), Fault>
        ensures { Reads sum nesting.around self.old self.new result }
    {
        self.product(nesting)?;
        // As long as the sign stands there.
        while self.take(b'+') {
            let mark = self.pos - 1;
            self.product(nesting)?;
            self.push(Step::Add(mark), self.waiting - 1);
        }
        Ok(())
    }

    /// A sum and the byte behind it.
    #[cycle(closed_part_product_sum)]
    fn closed(&mut self, nesting: Nesting, end: u8) -> Result<(), Fault>
        ensures { Reads (closed end) nesting.around self.old self.new result }
    {
        self.sum(nesting)?;
        self.expect(end)
    }

    /// A line: a place, '=', a sum, and byte 10.
    fn line(&mut self) -> Result<(), Fault>
        requires more { self.old.pos < length self.old.src.now }
        ensures { Reads line 0 self.old self.new result }
    {
        let Some(target) = self.peek_place() else {
            return Err(Fault::Grammar(self.pos));
        };
        self.pos += 1;
        self.expect(b'=')?;
        self.closed(Nesting { around: 0 }, b'\n')?;
        self.push(Step::Store(target), self.waiting - 1);
        Ok(())
    }

    /// A whole script: lines up to its end.
    pub(super) fn script(&mut self) -> Result<(), Fault>
        ensures { Whole self.old self.new result }
    {
        // As long as a byte is left.
        while self.peek().is_some() {
            self.line()?;
        }
        Ok(())
    }
}
