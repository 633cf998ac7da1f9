// Reading an order.
ghost use Rattle.std.specs.Prelude.{◌≡◌};
ghost use Rattle.order_numbers.specs.Numbers.{order_numbers_of};

use order_numbers::numbers::{OrderNumbers, read_numbers};

pub fn katchidul_read_order(order: &[u8]) -> OrderNumbers
    ensures { result ≡ order_numbers_of order.now }
{
    read_numbers(order)
}
