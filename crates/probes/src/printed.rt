// The whole sheet, the wear report and the week's as exports, for the runs against the crate and the benchmark.
ghost use Rattle.std.specs.Prelude.{◌≡◌};
ghost use Rattle.pages.specs.Reports.{wear_text, longest_wear};
ghost use Rattle.sheets.specs.Rows.{sheet_call_of};
ghost use Rattle.text.specs.Printed.{printed_of};
ghost use Rattle.weeks.specs.Report.{week_text, longest_week};

use pages::report::write_wear;
use sheets::sheet::write_sheet;
use weeks::report::write_week;

#[unsafe(no_mangle)]
pub extern "C" fn probe_sheet(order: &[u8], buffer: &mut [u8]) -> usize
    ensures value { result ≡ (sheet_call_of order.now buffer.old).answer }
    ensures buffer_after { buffer.new ≡ (sheet_call_of order.now buffer.old).buffer }
{
    write_sheet(order, buffer)
}

#[unsafe(no_mangle)]
pub extern "C" fn probe_wear(order: &[u8], buffer: &mut [u8]) -> usize
    ensures value { result ≡ (printed_of longest_wear (wear_text order.now) buffer.old).answer }
    ensures buffer_after { buffer.new ≡ (printed_of longest_wear (wear_text order.now) buffer.old).buffer }
{
    write_wear(order, buffer)
}

#[unsafe(no_mangle)]
pub extern "C" fn probe_week(order: &[u8], buffer: &mut [u8]) -> usize
    ensures value { result ≡ (printed_of longest_week (week_text order.now) buffer.old).answer }
    ensures buffer_after { buffer.new ≡ (printed_of longest_week (week_text order.now) buffer.old).buffer }
{
    write_week(order, buffer)
}
