// A window's line: `0 -2 0 -1 2`, or `0 refused`.
ghost use Rattle.std.specs.Prelude.{◌≡◌, ◌+◌, ◌≤◌, length};
ghost use Rattle.text.specs.Text.{put_of};
ghost use Rattle.weeks.specs.Lines.{pair_text, line_of};

use crate::window::Extremes;
use text::decimal::put_decimal;
use text::put::put;
use text::signed::put_signed;

// Writes a minute and its row, with a blank before each. Returns where they end.
fn put_pair(buffer: &mut [u8], at: usize, minute: i64, row: usize) -> usize
    requires { at + length (pair_text minute row) ≤ length buffer.old }
    ensures value { result ≡ at + length (pair_text minute row) }
    ensures buffer_after { buffer.new ≡ put_of buffer.old at (pair_text minute row) }
{
    put(buffer, at, b" ");
    let end = at + 1;
    let end = end + put_signed(buffer, end, minute);
    put(buffer, end, b" ");
    let end = end + 1;
    end + put_decimal(buffer, end, row as u64)
}

// Writes the line of the window that starts at row `first`. Returns where it ends.
pub fn put_window(buffer: &mut [u8], at: usize, first: usize, window: Option<Extremes>) -> usize
    requires { at + length (line_of first window) ≤ length buffer.old }
    ensures value { result ≡ at + length (line_of first window) }
    ensures buffer_after { buffer.new ≡ put_of buffer.old at (line_of first window) }
{
    let end = at + put_decimal(buffer, at, first as u64);
    match window {
        Some(found) => {
            let end = put_pair(buffer, end, found.earliest, found.earliest_row);
            let end = put_pair(buffer, end, found.latest, found.latest_row);
            put(buffer, end, b"\n");
            end + 1
        }
        None => {
            put(buffer, end, b" refused\n");
            end + 9
        }
    }
}
