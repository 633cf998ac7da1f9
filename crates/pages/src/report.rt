// What the programs wear and cells print: an order's dots, and the cells of all its pages, at the front of a lent buffer.
ghost use Rattle.std.specs.Prelude.{◌≡◌, ◌≤◌, length};
ghost use Rattle.braille.specs.Braille.{dots_of};
ghost use Rattle.order.specs.Accepted.{Accepted};
ghost use Rattle.text.specs.Printed.{printed_of};
ghost use Rattle.text.specs.Text.{front_of};
ghost use Rattle.pages.specs.Pages.{all_cells};
ghost use Rattle.pages.specs.Reports.{wear_text, total_text, cells_text, longest_wear, longest_cells};

use super::rows::put_rows;
use braille::row::ROW_CELLS;
use lines::refused::put_refused_order;
use order::reading::{MOST_ROWS, Order, read};
use text::decimal::put_decimal;
use text::put::put;

// The bytes of the longest of these texts.
pub const WEAR_BYTES: usize = 62;

pub const CELLS_BYTES: usize = ROW_CELLS * MOST_ROWS as usize;

// The dots of all pages, which are those of all rows. The empty buffer keeps no cell.
fn all_dots(order: Order) -> u32
    requires { Accepted order }
    ensures { result ≡ dots_of (all_cells order) }
{
    let mut cells = [0u8; 0];
    put_rows(&mut cells, order, 0, order.rows)
}

fn put_total(buffer: &mut [u8], dots: u32) -> usize
    requires { longest_wear ≤ length buffer.old }
    ensures value { result ≡ length (total_text dots) }
    ensures buffer_after { buffer.new ≡ front_of (total_text dots) buffer.old }
{
    put(buffer, 0, b"dots ");
    let end = 5 + put_decimal(buffer, 5, dots as u64);
    put(buffer, end, b"\n");
    end + 1
}

// Returns the length of the text. If the buffer is shorter than WEAR_BYTES, the longest text, it stays as it is and 0 is returned.
pub fn write_wear(order: &[u8], buffer: &mut [u8]) -> usize
    ensures value { result ≡ (printed_of longest_wear (wear_text order.now) buffer.old).answer }
    ensures buffer_after { buffer.new ≡ (printed_of longest_wear (wear_text order.now) buffer.old).buffer }
{
    if buffer.len() < WEAR_BYTES {
        return 0;
    }
    match read(order) {
        Ok(order) => put_total(buffer, all_dots(order)),
        Err(refusal) => put_refused_order(buffer, 0, refusal),
    }
}

fn put_pages(buffer: &mut [u8], order: Order) -> usize
    requires { Accepted order × (longest_cells ≤ length buffer.old) }
    ensures value { result ≡ length (all_cells order) }
    ensures buffer_after { buffer.new ≡ front_of (all_cells order) buffer.old }
{
    put_rows(buffer, order, 0, order.rows);
    ROW_CELLS * order.rows as usize
}

// Returns how many bytes it wrote. If the buffer is shorter than CELLS_BYTES, all an order can need, it stays as it is and 0 is returned.
pub fn write_pages(order: &[u8], buffer: &mut [u8]) -> usize
    ensures value { result ≡ (printed_of longest_cells (cells_text order.now) buffer.old).answer }
    ensures buffer_after { buffer.new ≡ (printed_of longest_cells (cells_text order.now) buffer.old).buffer }
{
    if buffer.len() < CELLS_BYTES {
        return 0;
    }
    match read(order) {
        Ok(order) => put_pages(buffer, order),
        Err(refusal) => put_refused_order(buffer, 0, refusal),
    }
}
