// The cells of a page, or of a piece of it, at the front of a lent scratch.
ghost use Rattle.std.specs.Prelude.{◌≡◌, ◌≤◌, min, length};
ghost use Rattle.braille.specs.Cells.{row_length};
ghost use Rattle.order.specs.Accepted.{Accepted};
ghost use Rattle.pages.specs.Pages.{page_of};
ghost use Rattle.pages.specs.Answers.{put_call_of, piece_in, page_call_of};

use super::answer::Punched;
use super::rows::write_rows;
use braille::row::ROW_CELLS;
use days::day::lacks_row;
use order::reading::{Order, read};
use refusals::{BUFFER_SHORT, Refusal};

const PAGE_ROWS: u32 = 25;

// The number of rows on a page. Pages count from 1. A page that the order lacks has no rows.
fn rows_on(order: Order, page: u32) -> u32
    ensures { result ≡ length (page_of order page) }
{
    if page == 0 {
        return 0;
    }
    let before = PAGE_ROWS as u64 * (page as u64 - 1);
    if before >= order.rows as u64 {
        return 0;
    }
    let left = order.rows - before as u32;
    left.min(PAGE_ROWS)
}

// The number of rows that fit and are left.
fn rows_that_fit(room: usize, left: u32) -> u32
    ensures { result ≡ min room left }
{
    room.min(left as usize) as u32
}

fn write_read(order: Order, page: u32, first: u32, scratch: &mut [u8]) -> Punched
    requires { Accepted order × (row_length ≤ length scratch.old) }
    ensures value { result ≡ (put_call_of (piece_in page first scratch.old order) scratch.old).answer }
    ensures scratch_after { scratch.new ≡ (put_call_of (piece_in page first scratch.old order) scratch.old).buffer }
{
    let count = rows_on(order, page);
    if first >= count {
        return Punched::refused(lacks_row());
    }
    let taken = rows_that_fit(scratch.len() / ROW_CELLS, count - first);
    write_rows(order, PAGE_ROWS * (page - 1) + first, taken, scratch)
}

// Writes the rows of a page from its row `first` on, as many as fit the scratch and are left. Returns 9 if the scratch is shorter than one
// row of cells. This is checked first.
pub fn write_page(order: &[u8], page: u32, first: u32, scratch: &mut [u8]) -> Punched
    ensures value { result ≡ (page_call_of order.now page first scratch.old).answer }
    ensures scratch_after { scratch.new ≡ (page_call_of order.now page first scratch.old).buffer }
{
    if scratch.len() < ROW_CELLS {
        return Punched::refused(Refusal::new(BUFFER_SHORT, 0));
    }
    match read(order) {
        Ok(order) => write_read(order, page, first, scratch),
        Err(refusal) => Punched::refused(refusal),
    }
}
