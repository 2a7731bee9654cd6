use tile::Tile;

/// A call with its arguments. A write and a print use at most `room` of what is left of their output buffer.
#[derive(Clone, Copy, Debug, PartialEq, Eq)]
pub enum Call<'a> {
    Enter {
        place: usize,
        words: &'a [u32],
    },
    Run {
        script: &'a [u8],
    },
    Clear {
        place: usize,
    },
    Write {
        place: usize,
        room: usize,
    },
    Print {
        place: usize,
        tile: Tile,
        room: usize,
    },
}
