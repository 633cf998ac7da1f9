// The calls of crates/katchidul under the names that C links. Each has the contract of the function that it calls. A library of Rattle and an
// archive for C cannot be one crate.
#![tactic(auto)]

ghost use Rattle.std.specs.Prelude.{◌≡◌};
ghost use Rattle.katchidul.specs.Exports.{version, day_got, prayer_got, next_answer_of, remaining_answer_of};
ghost use Rattle.order_numbers.specs.Numbers.{order_numbers_of};
ghost use Rattle.order_numbers.specs.Writing.{order_call_of};
ghost use Rattle.map_form.specs.Hundredths.{most_latitude, most_longitude};
ghost use Rattle.map_form.specs.Written.{map_latitude_tag, written_of, map_longitude_tag};
ghost use Rattle.days.specs.Calls.{instant_of, next_at_of, remaining_at_of};
ghost use Rattle.sheets.specs.Rows.{row_call_of};
ghost use Rattle.pages.specs.Answers.{cells_call_of, page_call_of};
ghost use Rattle.queue.specs.Arrays.{joined_of, turned_of};
ghost use Rattle.joblog.specs.Calls.{read_log_of, append_of, restart_of};
ghost use Rattle.sentences.specs.Sentences.{sentence_call_of, meaning_of};

use joblog::calls::Log;
use katchidul::prayer_at::KatchidulPrayer;
use katchidul::remaining_at::KatchidulRemaining;
use katchidul::work_day::KatchidulDay;
use map_form::writing::Written;
use order_numbers::numbers::OrderNumbers;
use order_numbers::writing::WrittenOrder;
use pages::answer::Punched;
use queue::{Joined, Queue, Turned};
use refusals::Refusal;
use sentences::{Meaning, WrittenSentence};

#[unsafe(no_mangle)]
pub extern "C" fn katchidul_version() -> u32
    ensures { result ≡ version }
{
    katchidul::version::katchidul_version()
}

#[unsafe(no_mangle)]
pub extern "C" fn katchidul_read_order(order: &[u8]) -> OrderNumbers
    ensures { result ≡ order_numbers_of order.now }
{
    katchidul::read_order::katchidul_read_order(order)
}

#[unsafe(no_mangle)]
pub extern "C" fn katchidul_write_order(
    order: OrderNumbers,
    town: &[u8],
    buffer: &mut [u8],
) -> WrittenOrder
    ensures value { result ≡ (order_call_of order town.now buffer.old).answer }
    ensures buffer_after { buffer.new ≡ (order_call_of order town.now buffer.old).buffer }
{
    katchidul::write_order::katchidul_write_order(order, town, buffer)
}

#[unsafe(no_mangle)]
pub extern "C" fn katchidul_map_latitude(degrees: f64) -> Written
    ensures { result ≡ written_of map_latitude_tag most_latitude degrees }
{
    katchidul::map::katchidul_map_latitude(degrees)
}

#[unsafe(no_mangle)]
pub extern "C" fn katchidul_map_longitude(degrees: f64) -> Written
    ensures { result ≡ written_of map_longitude_tag most_longitude degrees }
{
    katchidul::map::katchidul_map_longitude(degrees)
}

#[unsafe(no_mangle)]
pub extern "C" fn katchidul_work_day(order: &[u8], row: u32) -> KatchidulDay
    ensures { result ≡ day_got order.now row }
{
    katchidul::work_day::katchidul_work_day(order, row)
}

#[unsafe(no_mangle)]
pub extern "C" fn katchidul_prayer_at(
    order: &[u8],
    row: u32,
    seconds: i64,
    nanoseconds: u32,
) -> KatchidulPrayer
    ensures { result ≡ prayer_got order.now row (instant_of seconds nanoseconds) }
{
    katchidul::prayer_at::katchidul_prayer_at(order, row, seconds, nanoseconds)
}

#[unsafe(no_mangle)]
pub extern "C" fn katchidul_next_at(
    order: &[u8],
    row: u32,
    seconds: i64,
    nanoseconds: u32,
) -> KatchidulPrayer
    ensures { result ≡ next_answer_of (next_at_of order.now row (instant_of seconds nanoseconds)) }
{
    katchidul::prayer_at::katchidul_next_at(order, row, seconds, nanoseconds)
}

#[unsafe(no_mangle)]
pub extern "C" fn katchidul_remaining_at(
    order: &[u8],
    row: u32,
    seconds: i64,
    nanoseconds: u32,
) -> KatchidulRemaining
    ensures { result ≡ remaining_answer_of (remaining_at_of order.now row (instant_of seconds nanoseconds)) }
{
    katchidul::remaining_at::katchidul_remaining_at(order, row, seconds, nanoseconds)
}

#[unsafe(no_mangle)]
pub extern "C" fn katchidul_write_row(order: &[u8], row: u32, buffer: &mut [u8]) -> Refusal
    ensures value { result ≡ (row_call_of order.now row buffer.old).answer }
    ensures buffer_after { buffer.new ≡ (row_call_of order.now row buffer.old).buffer }
{
    katchidul::write_row::katchidul_write_row(order, row, buffer)
}

#[unsafe(no_mangle)]
pub extern "C" fn katchidul_write_cells(order: &[u8], row: u32, buffer: &mut [u8]) -> Punched
    ensures value { result ≡ (cells_call_of order.now row buffer.old).answer }
    ensures buffer_after { buffer.new ≡ (cells_call_of order.now row buffer.old).buffer }
{
    katchidul::write_cells::katchidul_write_cells(order, row, buffer)
}

#[unsafe(no_mangle)]
pub extern "C" fn katchidul_write_page(
    order: &[u8],
    page: u32,
    first: u32,
    scratch: &mut [u8],
) -> Punched
    ensures value { result ≡ (page_call_of order.now page first scratch.old).answer }
    ensures scratch_after { scratch.new ≡ (page_call_of order.now page first scratch.old).buffer }
{
    katchidul::write_cells::katchidul_write_page(order, page, first, scratch)
}

#[unsafe(no_mangle)]
pub extern "C" fn katchidul_join(queue: Queue, id: u32, pages: u32) -> Joined
    ensures { result ≡ joined_of queue id pages }
{
    katchidul::print_queue::katchidul_join(queue, id, pages)
}

#[unsafe(no_mangle)]
pub extern "C" fn katchidul_turn(queue: Queue) -> Turned
    ensures { result ≡ turned_of queue }
{
    katchidul::print_queue::katchidul_turn(queue)
}

#[unsafe(no_mangle)]
pub extern "C" fn katchidul_read_log(log: &[u8], used: usize) -> Log
    ensures { result ≡ read_log_of log.now used }
{
    katchidul::job_log::katchidul_read_log(log, used)
}

#[unsafe(no_mangle)]
pub extern "C" fn katchidul_append(
    log: &mut [u8],
    used: usize,
    tag: u32,
    page: u32,
    second: &mut [u8],
) -> Log
    ensures value { result ≡ (append_of log.old used tag page second.old).answer }
    ensures log_after { log.new ≡ (append_of log.old used tag page second.old).log }
    ensures second_after { second.new ≡ (append_of log.old used tag page second.old).second }
{
    katchidul::job_log::katchidul_append(log, used, tag, page, second)
}

#[unsafe(no_mangle)]
pub extern "C" fn katchidul_restart(log: &[u8], used: usize, count: u32, second: &mut [u8]) -> Log
    ensures value { result ≡ (restart_of log.now used count second.old).answer }
    ensures second_after { second.new ≡ (restart_of log.now used count second.old).second }
{
    katchidul::job_log::katchidul_restart(log, used, count, second)
}

#[unsafe(no_mangle)]
pub extern "C" fn katchidul_write_sentence(
    number: u32,
    place: u32,
    buffer: &mut [u8],
) -> WrittenSentence
    ensures value { result ≡ (sentence_call_of number place buffer.old).answer }
    ensures buffer_after { buffer.new ≡ (sentence_call_of number place buffer.old).buffer }
{
    katchidul::sentence::katchidul_write_sentence(number, place, buffer)
}

#[unsafe(no_mangle)]
pub extern "C" fn katchidul_read_sentence(sentence: &[u8]) -> Meaning
    ensures { result ≡ meaning_of sentence.now }
{
    katchidul::sentence::katchidul_read_sentence(sentence)
}
