//! The eight places.
ghost use Rattle.std.specs.Prelude.{◌≡◌};
ghost use Rattle.recipe.specs.Places.{number, Decodes};

/// A place, by the letter that names it.
#[derive(Clone, Copy, Debug, PartialEq, Eq)]
pub enum Place {
    A,
    B,
    C,
    D,
    E,
    F,
    G,
    H,
}

/// A number that is no place's.
#[derive(Clone, Copy, Debug, PartialEq, Eq)]
pub struct NoPlace(pub usize);

/// The place's number, 0 to 7 from A to H.
impl From<Place> for usize {
    ghost from_gives = { λ p n. n ≡ number p };

    fn from(place: Place) -> usize {
        place as usize
    }
}

/// The place with a number; numbers above 7 have none.
impl TryFrom<usize> for Place {
    type Error = NoPlace;

    ghost try_from_gives = { Decodes };

    fn try_from(n: usize) -> Result<Place, NoPlace> {
        match n {
            0 => Ok(Place::A),
            1 => Ok(Place::B),
            2 => Ok(Place::C),
            3 => Ok(Place::D),
            4 => Ok(Place::E),
            5 => Ok(Place::F),
            6 => Ok(Place::G),
            7 => Ok(Place::H),
            _ => Err(NoPlace(n)),
        }
    }
}
