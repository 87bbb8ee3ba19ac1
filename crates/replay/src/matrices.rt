// Matrices of a line, which stand close together, put where linalg and block_solve have them.
ghost use Rattle.std.specs.Prelude.{◌<◌};

use replay_cases::words::Words;

// A list of the entries of `count` matrices of rows and columns, row after row and matrix after matrix, each put in the upper left of a
// block of SIZE places, WIDTH to a row. A list of another length is a fault, and so is a row that is longer.
pub fn read_matrices<const SIZE: usize, const WIDTH: usize>(
    words: &mut Words<'_>,
    count: usize,
    rows: usize,
    columns: usize,
    to: &mut [f64],
) -> Option<()>
    requires size { 0 < SIZE }
    requires width { 0 < WIDTH }
{
    let entries = count.checked_mul(rows)?.checked_mul(columns)?;
    if words.value::<usize>()? != entries {
        return None;
    }
    for block in to.chunks_mut(SIZE).take(count) {
        for row in block.chunks_mut(WIDTH).take(rows) {
            words.values(row.get_mut(..columns)?)?;
        }
    }
    Some(())
}
