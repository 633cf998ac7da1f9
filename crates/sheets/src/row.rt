// A row's line at the front of a lent buffer. A refused call changes no byte of it.
ghost use Rattle.std.specs.Prelude.{◌≡◌, MatchResult};
ghost use Rattle.refusals.specs.Refusals.{no_refusal};
ghost use Rattle.sheets.specs.Rows.{row_call_of};

use days::day::{lacks_row, since_midnight};
use lines::row::{ROW_BYTES, put_row, row_bytes};
use order::reading::read;
use refusals::{BUFFER_SHORT, Refusal};

// Refuses a buffer that is shorter than a full row without imsak. This is checked first. A row of a Ramadan sheet is longer: its bytes are
// asked for before the row. An order that lacks the row gives 5 with the rows' tag.
fn written(order: &[u8], row: u32, buffer: &mut [u8]) -> Result<(), Refusal>
    ensures value { MatchResult result (λ _. no_refusal ≡ (row_call_of order.now row buffer.old).answer)
        (λ r. r ≡ (row_call_of order.now row buffer.old).answer) }
    ensures buffer_after { buffer.new ≡ (row_call_of order.now row buffer.old).buffer }
{
    if buffer.len() < ROW_BYTES {
        return Err(Refusal::new(BUFFER_SHORT, 0));
    }
    let order = read(order)?;
    let bytes = row_bytes(order.ramadan);
    if buffer.len() < bytes {
        return Err(Refusal::new(BUFFER_SHORT, 0));
    }
    if row >= order.rows {
        return Err(lacks_row());
    }
    let date = order.date.row(row);
    let times = since_midnight(order, date)?;
    put_row(buffer, 0, order.ramadan, date, times);
    Ok(())
}

// Returns number 0 if the row is written, as C is told it.
pub fn write_row(order: &[u8], row: u32, buffer: &mut [u8]) -> Refusal
    ensures value { result ≡ (row_call_of order.now row buffer.old).answer }
    ensures buffer_after { buffer.new ≡ (row_call_of order.now row buffer.old).buffer }
{
    match written(order, row, buffer) {
        Ok(()) => Refusal::none(),
        Err(refusal) => refusal,
    }
}
