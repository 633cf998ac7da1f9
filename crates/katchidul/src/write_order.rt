// Writing an order.
ghost use Rattle.std.specs.Prelude.{◌≡◌};
ghost use Rattle.order_numbers.specs.Writing.{order_call_of};

use order_numbers::numbers::OrderNumbers;
use order_numbers::writing::{WrittenOrder, write_order};

pub fn katchidul_write_order(order: OrderNumbers, town: &[u8], buffer: &mut [u8]) -> WrittenOrder
    ensures value { result ≡ (order_call_of order town.now buffer.old).answer }
    ensures buffer_after { buffer.new ≡ (order_call_of order town.now buffer.old).buffer }
{
    write_order(order, town, buffer)
}
