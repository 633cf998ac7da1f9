// Reads an order from standard input and prints its sheet. The buffer has one byte more than an order may have, so that a longer order is
// refused.
#![tactic(auto)]

use sheets::sheet::write_sheet;

fn main() {
    let mut order = [0u8; 1025];
    let count = io::read_full(0, &mut order);
    let mut sheet = io::large_buffer();
    let length = write_sheet(&order[..count], &mut sheet);
    io::write_all(1, &sheet[..length]);
}
