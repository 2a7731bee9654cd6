ghost use Rattle.std.specs.Prelude.{◌≡◌};
ghost use Rattle.picture.specs.Quadrants.{digit, named, Decodes};

/// A quarter of a square. An address names it by its digit, 0 to 3 in this order.
#[derive(Clone, Copy, Debug, PartialEq, Eq)]
pub enum Quadrant {
    UpperLeft,
    UpperRight,
    LowerLeft,
    LowerRight,
}

/// A number that is no quadrant's digit.
#[derive(Clone, Copy, Debug, PartialEq, Eq)]
pub struct NoQuadrant(pub u8);

impl From<Quadrant> for u8 {
    ghost from_gives = { λ q n. n ≡ digit q };

    fn from(quadrant: Quadrant) -> u8 {
        quadrant as u8
    }
}

impl TryFrom<u8> for Quadrant {
    type Error = NoQuadrant;

    ghost try_from_gives = { Decodes };

    fn try_from(number: u8) -> Result<Quadrant, NoQuadrant> {
        match number {
            0 => Ok(Quadrant::UpperLeft),
            1 => Ok(Quadrant::UpperRight),
            2 => Ok(Quadrant::LowerLeft),
            3 => Ok(Quadrant::LowerRight),
            _ => Err(NoQuadrant(number)),
        }
    }
}

impl Quadrant {
    /// The quadrant that a number below 4 names, and upper left for any other.
    // The table again, and no `try_from`: its callers would unwrap what cannot fail.
    pub fn named(number: usize) -> Quadrant
        ensures { result ≡ named number }
    {
        match number {
            1 => Quadrant::UpperRight,
            2 => Quadrant::LowerLeft,
            3 => Quadrant::LowerRight,
            _ => Quadrant::UpperLeft,
        }
    }
}
