// Reads an order from standard input and writes the cells of all its pages for the embosser, one byte a cell. The buffer has one byte
// more than an order may have, so that a longer order is refused.
#![tactic(auto)]

use pages::report::write_pages;

fn main() {
    let mut order = [0u8; 1025];
    let count = io::read_full(0, &mut order);
    let mut cells = io::large_buffer();
    let length = write_pages(&order[..count], &mut cells);
    io::write_all(1, &cells[..length]);
}
