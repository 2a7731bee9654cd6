//! How much a full tile costs, by count. The weights cannot count: by their laws they do not see how a sum is gathered.

/// Row and column steps, and multiply-adds.
#[derive(Clone, Copy)]
pub(crate) struct Work {
    pub steps: u64,
    pub products: u64,
}

/// The cells of a tile of depth 6.
pub(crate) const CELLS: u64 = 4096;

const STATES: u64 = 64;

/// The arcs of one digit, of 512 in all.
const ARCS: u64 = 128;

/// The bands of a tile: rows of cells that share their coarse digits, four of six.
const BANDS: u64 = 16;

/// So many steps, each along the arcs of its digit.
fn along(steps: u64) -> Work {
    Work {
        steps,
        products: steps.saturating_mul(ARCS),
    }
}

/// The columns of one digit, then those of two.
pub(crate) fn columns() -> Work {
    along(4 + 16)
}

/// For each band, two rows at the first level, four at the second, eight and sixteen.
pub(crate) fn rows() -> Work {
    along(BANDS * (2 + 4 + 8 + 16))
}

/// A row times a column for each cell.
pub(crate) fn cells() -> Work {
    Work {
        steps: 0,
        products: CELLS * STATES,
    }
}

/// All of it.
pub(crate) fn tile() -> Work {
    let (a, b, c) = (columns(), rows(), cells());
    Work {
        steps: a.steps.saturating_add(b.steps),
        products: a
            .products
            .saturating_add(b.products)
            .saturating_add(c.products),
    }
}

/// Six steps and a row times a column for each cell, from the tile's prefix.
pub(crate) fn plain() -> Work {
    let way = along(CELLS * 6);
    Work {
        steps: way.steps,
        products: way.products.saturating_add(CELLS * STATES),
    }
}
