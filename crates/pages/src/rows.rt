// Rows of an order that follow one another, at the front of a lent buffer.
ghost use Rattle.std.specs.Prelude.{◌≡◌, ◌+◌, ◌-◌, ◌*◌, ◌≤◌, ◌<◌, length};
ghost use Rattle.braille.specs.Braille.{dots_of};
ghost use Rattle.braille.specs.Cells.{row_length};
ghost use Rattle.order.specs.Accepted.{Accepted};
ghost use Rattle.text.specs.Text.{front_of};
ghost use Rattle.pages.specs.Pages.{rows_from, cells_of};
ghost use Rattle.pages.specs.Answers.{punched_of};

use super::answer::Punched;
use braille::row::{ROW_CELLS, put_cells};
use order::reading::Order;
use refusals::Refusal;
use schedule::rolling::RowSuns;

// Returns the dots of the rows from `row` to before `end`, and writes these rows at the front of the buffer. A row without room is counted
// but not written. Each row uses what the row before it has worked.
pub fn put_rows(buffer: &mut [u8], order: Order, row: u32, end: u32) -> u32
    requires { Accepted order × (row < end) × (end ≤ order.rows) }
    ensures value { result ≡ dots_of (cells_of (rows_from order row (end - row))) }
    ensures buffer_after { row_length * (end - row) ≤ length buffer.old
        → buffer.new ≡ front_of (cells_of (rows_from order row (end - row))) buffer.old }
{
    let mut suns = RowSuns::new(order.date.row(row), order.setting);
    let mut dots = 0;
    for next in row..end {
        if next > row {
            suns = suns.next(order.setting);
        }
        let worked = suns.since_midnight(order.setting);
        let at = ROW_CELLS * (next - row) as usize;
        dots += put_cells(buffer, at, suns.date, worked, order.clock);
    }
    dots
}

// Writes `count` rows from `row` on. Returns `count` and their dots.
pub fn write_rows(order: Order, row: u32, count: u32, buffer: &mut [u8]) -> Punched
    requires { Accepted order × (0 < count) × (row + count ≤ order.rows) × (row_length * count ≤ length buffer.old) }
    ensures value { result ≡ punched_of (rows_from order row count) }
    ensures buffer_after { buffer.new ≡ front_of (cells_of (rows_from order row count)) buffer.old }
{
    let dots = put_rows(buffer, order, row, row + count);
    Punched {
        refusal: Refusal::none(),
        rows: count,
        dots,
    }
}
