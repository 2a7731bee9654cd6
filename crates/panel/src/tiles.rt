//! Tiles as text and as pictures.
ghost use Rattle.std.specs.Prelude.{◌≤◌};

use crate::shown::Shown;
use anyhow::anyhow;
use picture::Stored;
use tile::{SCRATCH, Tile, print};

/// All cells at depth 2.
pub(crate) const WHOLE: Tile = Tile {
    depth: 2,
    digits: 0,
    prefix: 0,
};

/// The tile that three numbers name.
pub(crate) fn parse(depth: &str, digits: &str, prefix: &str) -> anyhow::Result<Tile> {
    Ok(Tile {
        depth: depth.parse::<usize>()?,
        digits: digits.parse::<usize>()?,
        prefix: prefix.parse::<usize>()?,
    })
}

/// How many digits of a cell follow the prefix, in a tile that can be printed.
fn below(tile: Tile) -> usize
    ensures { result ≤ 6 }
{
    tile.depth.saturating_sub(tile.digits).min(6)
}

/// The tile's cells, or none with an explanation.
fn cells<W: Shown>(rt: &HostRuntime, body: Stored<'_, W>, tile: Tile) -> anyhow::Result<Vec<W>> {
    let mut scratch = vec![in rt.alloc(); W::zero(); SCRATCH]?;
    let mut cells = vec![in rt.alloc(); W::zero(); 1 << (2 * below(tile))]?;
    match print(body, tile, &mut scratch, &mut cells) {
        Ok(_) => Ok(cells),
        Err(fault) => {
            let number = fault.number();
            Err(anyhow!(format!(in rt.alloc(); "refused {number}: {fault}")?))
        }
    }
}

/// A line of numbers for each row of a tile.
pub(crate) fn numbers<W: Shown>(
    rt: &HostRuntime,
    body: Stored<'_, W>,
    tile: Tile,
) -> anyhow::Result<()> {
    let cells = cells(rt, body, tile)?;
    rows(rt, &cells, 1 << below(tile))
}

/// Rows of cells as numbers.
fn rows<W: Shown>(rt: &HostRuntime, cells: &[W], side: usize) -> anyhow::Result<()> {
    for row in cells.chunks(side.max(1)) {
        let Some((last, front)) = row.split_last() else {
            continue;
        };
        for cell in front {
            print!(rt; "{cell} ")?;
        }
        println!(rt; "{last}")?;
    }
    Ok(())
}

/// A tile as a plain PGM, or as a plain PBM where there are two shades.
pub(crate) fn picture<W: Shown>(
    rt: &HostRuntime,
    body: Stored<'_, W>,
    tile: Tile,
) -> anyhow::Result<()> {
    let Some(largest) = W::LARGEST else {
        return Err(anyhow!("a picture is of mask, grey or ink"));
    };
    let cells = cells(rt, body, tile)?;
    let side = 1usize << below(tile);
    if largest == 1 {
        println!(rt; "P1\n{side} {side}")?;
    } else {
        println!(rt; "P2\n{side} {side}\n{largest}")?;
    }
    rows(rt, &cells, side)
}
