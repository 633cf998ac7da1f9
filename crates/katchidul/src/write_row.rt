// A row's line in a lent buffer.
ghost use Rattle.std.specs.Prelude.{◌≡◌};
ghost use Rattle.sheets.specs.Rows.{row_call_of};

use refusals::Refusal;
use sheets::row::write_row;

pub fn katchidul_write_row(order: &[u8], row: u32, buffer: &mut [u8]) -> Refusal
    ensures value { result ≡ (row_call_of order.now row buffer.old).answer }
    ensures buffer_after { buffer.new ≡ (row_call_of order.now row buffer.old).buffer }
{
    write_row(order, row, buffer)
}
