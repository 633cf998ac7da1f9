// Reads an order from standard input and prints the earliest and the latest Fajr of every seven successive rows. The buffer has one
// byte more than an order may have, so that a longer order is refused.
#![tactic(auto)]

use weeks::report::write_week;

fn main() {
    let mut order = [0u8; 1025];
    let count = io::read_full(0, &mut order);
    let mut report = io::large_buffer();
    let length = write_week(&order[..count], &mut report);
    io::write_all(1, &report[..length]);
}
