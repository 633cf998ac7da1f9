// The cells of a row at the front of a lent buffer.
ghost use Rattle.std.specs.Prelude.{◌≡◌, ◌≤◌, length};
ghost use Rattle.braille.specs.Cells.{row_length};
ghost use Rattle.order.specs.Accepted.{Accepted};
ghost use Rattle.pages.specs.Answers.{one_row, put_call_of, cells_call_of};

use super::answer::Punched;
use super::rows::write_rows;
use braille::row::ROW_CELLS;
use days::day::lacks_row;
use order::reading::{Order, read};
use refusals::{BUFFER_SHORT, Refusal};

fn write_read(order: Order, row: u32, buffer: &mut [u8]) -> Punched
    requires { Accepted order × (row_length ≤ length buffer.old) }
    ensures value { result ≡ (put_call_of (one_row row order) buffer.old).answer }
    ensures buffer_after { buffer.new ≡ (put_call_of (one_row row order) buffer.old).buffer }
{
    if row < order.rows {
        return write_rows(order, row, 1, buffer);
    }
    Punched::refused(lacks_row())
}

// Returns 9 if the buffer is shorter than a row of cells. This is checked first. If the day is refused, the row shows its date alone.
pub fn write_cells(order: &[u8], row: u32, buffer: &mut [u8]) -> Punched
    ensures value { result ≡ (cells_call_of order.now row buffer.old).answer }
    ensures buffer_after { buffer.new ≡ (cells_call_of order.now row buffer.old).buffer }
{
    if buffer.len() < ROW_CELLS {
        return Punched::refused(Refusal::new(BUFFER_SHORT, 0));
    }
    match read(order) {
        Ok(order) => write_read(order, row, buffer),
        Err(refusal) => Punched::refused(refusal),
    }
}
