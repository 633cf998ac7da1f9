// Writing an order.
ghost use Rattle.std.specs.Prelude.{◌≡◌, ◌≤◌, length};
ghost use Rattle.order.specs.Reading.{reading_of};
ghost use Rattle.order_numbers.specs.Values.{line_length};
ghost use Rattle.order_numbers.specs.Writing.{refused_of, call_in, order_call_of};

use super::numbers::OrderNumbers;
use super::put::Line;
use order::reading::read;
use refusals::{BUFFER_SHORT, Refusal};
use text::put::put;

// What writing returns: the refusal, or how many bytes the order has.
#[repr(C)]
#[derive(Clone, Copy)]
pub struct WrittenOrder {
    pub refusal: Refusal,
    pub length: u32,
}

fn refuse(refusal: Refusal) -> WrittenOrder
    ensures { result ≡ refused_of refusal }
{
    WrittenOrder { refusal, length: 0 }
}

// Reads the order's bytes back. A refusal of the reader is returned before the buffer's length is checked.
fn hand_out(text: &[u8], buffer: &mut [u8]) -> WrittenOrder
    requires { length text.now ≤ line_length }
    ensures value { result ≡ (call_in (reading_of text.now) text.now buffer.old).answer }
    ensures buffer_after { buffer.new ≡ (call_in (reading_of text.now) text.now buffer.old).buffer }
{
    match read(text) {
        Err(refusal) => refuse(refusal),
        Ok(_) => {
            if text.len() > buffer.len() {
                return refuse(Refusal::new(BUFFER_SHORT, 0));
            }
            put(&mut buffer[..], 0, text);
            WrittenOrder {
                refusal: Refusal::none(),
                length: text.len() as u32,
            }
        }
    }
}

// The order's bytes are made in a line of their own: a refused call leaves the buffer as it was. The refusal and the town's place in the
// struct are not used, because the town is given by itself.
pub fn write_order(numbers: OrderNumbers, town: &[u8], buffer: &mut [u8]) -> WrittenOrder
    ensures value { result ≡ (order_call_of numbers town.now buffer.old).answer }
    ensures buffer_after { buffer.new ≡ (order_call_of numbers town.now buffer.old).buffer }
{
    let line = Line::of_order(numbers, town);
    hand_out(&line.bytes[..line.end], &mut buffer[..])
}
