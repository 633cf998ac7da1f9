// Reads an order from standard input and prints how many dots its pages punch. The buffer has one byte more than an order may have, so that
// a longer order is refused.
#![tactic(auto)]

use pages::report::write_wear;

fn main() {
    let mut order = [0u8; 1025];
    let count = io::read_full(0, &mut order);
    let mut report = io::large_buffer();
    let length = write_wear(&order[..count], &mut report);
    io::write_all(1, &report[..length]);
}
