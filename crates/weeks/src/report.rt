// The whole report of an order at the front of a lent buffer.
ghost use Rattle.std.specs.Prelude.{◌≡◌, ◌≤◌, length};
ghost use Rattle.order.specs.Accepted.{Accepted};
ghost use Rattle.order.specs.Ranges.{most_rows};
ghost use Rattle.text.specs.Printed.{printed_of};
ghost use Rattle.text.specs.Text.{front_of};
ghost use Rattle.weeks.specs.Kept.{minute_in_list};
ghost use Rattle.weeks.specs.Lines.{report_of};
ghost use Rattle.weeks.specs.Report.{orders_report, week_text, longest_week};

use super::line::put_window;
use super::minutes::{ROWS, work_minutes};
use super::window::window_from;
use lines::refused::put_refused_order;
use order::reading::{Order, read};

// Three digits of the first row; twice a blank, a minute, a blank and a row; and a newline.
const LINE_BYTES: usize = 56;

// The bytes of the longest report.
pub const WEEK_BYTES: usize = LINE_BYTES * (ROWS - 6);

// Writes a line for every row that has six rows after it. Returns where the lines end.
fn put_windows(buffer: &mut [u8], minutes: &[Option<i64>]) -> usize
    requires { (length minutes.now ≤ most_rows) × (longest_week ≤ length buffer.old) }
    ensures value { result ≡ length (report_of (minute_in_list minutes.now) (length minutes.now)) }
    ensures buffer_after { buffer.new ≡ front_of (report_of (minute_in_list minutes.now) (length minutes.now)) buffer.old }
{
    let mut end = 0;
    for first in 0..minutes.len().saturating_sub(6) {
        end = put_window(buffer, end, first, window_from(minutes, first));
    }
    end
}

fn put_report(buffer: &mut [u8], order: Order) -> usize
    requires { Accepted order × (longest_week ≤ length buffer.old) }
    ensures value { result ≡ length (orders_report order) }
    ensures buffer_after { buffer.new ≡ front_of (orders_report order) buffer.old }
{
    let mut minutes = [None; ROWS];
    work_minutes(order, &mut minutes);
    put_windows(buffer, &minutes[..order.rows as usize])
}

// Returns the length of the text, which may be 0. If the buffer is shorter than WEEK_BYTES, the longest text, it stays as it is and 0 is
// returned.
pub fn write_week(order: &[u8], buffer: &mut [u8]) -> usize
    ensures value { result ≡ (printed_of longest_week (week_text order.now) buffer.old).answer }
    ensures buffer_after { buffer.new ≡ (printed_of longest_week (week_text order.now) buffer.old).buffer }
{
    if buffer.len() < WEEK_BYTES {
        return 0;
    }
    match read(order) {
        Ok(order) => put_report(buffer, order),
        Err(refusal) => put_refused_order(buffer, 0, refusal),
    }
}
