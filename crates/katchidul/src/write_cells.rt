// A row's cells, and those of a page or a piece of it, in a lent buffer.
ghost use Rattle.std.specs.Prelude.{◌≡◌};
ghost use Rattle.pages.specs.Answers.{cells_call_of, page_call_of};

use pages::answer::Punched;
use pages::page::write_page;
use pages::row::write_cells;

pub fn katchidul_write_cells(order: &[u8], row: u32, buffer: &mut [u8]) -> Punched
    ensures value { result ≡ (cells_call_of order.now row buffer.old).answer }
    ensures buffer_after { buffer.new ≡ (cells_call_of order.now row buffer.old).buffer }
{
    write_cells(order, row, buffer)
}

pub fn katchidul_write_page(order: &[u8], page: u32, first: u32, scratch: &mut [u8]) -> Punched
    ensures value { result ≡ (page_call_of order.now page first scratch.old).answer }
    ensures scratch_after { scratch.new ≡ (page_call_of order.now page first scratch.old).buffer }
{
    write_page(order, page, first, scratch)
}
