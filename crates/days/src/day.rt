// Working the day of an order's row.
ghost use Rattle.std.specs.Prelude.{◌≡◌};
ghost use Rattle.schedule.specs.Each.{NearIn};
ghost use Rattle.days.specs.Calls.{work_date_of, since_date_of, lacks_row, work_row_of, work_day_of};

use calendar::dates::Date;
use fields::tags;
use order::reading::{Order, read};
use refusals::{OUT_OF_RANGE, Refusal};
use schedule::prayer_times::PrayerTimes;
use schedule::rolling::RowSuns;

// A date by the order's setting: the first row of a run of rows.
pub fn work_date(order: Order, date: Date) -> Result<PrayerTimes, Refusal>
    ensures { result ≡ work_date_of order date }
{
    RowSuns::new(date, order.setting).work(order.setting)
}

// The same in seconds from 0h of the date.
pub fn since_midnight(order: Order, date: Date) -> Result<PrayerTimes, Refusal>
    ensures { (result ≡ since_date_of order date) × NearIn result }
{
    RowSuns::new(date, order.setting).since_midnight(order.setting)
}

// Its place is the tag of an order's rows.
pub fn lacks_row() -> Refusal
    ensures { result ≡ lacks_row }
{
    Refusal::new(OUT_OF_RANGE, tags::ROWS)
}

// Rows count from 0.
#[tactic(auto, unfolding(crate::specs::Calls::work_row_of))]
pub fn work_row(order: Order, row: u32) -> Result<PrayerTimes, Refusal>
    ensures { result ≡ work_row_of order row }
{
    if row < order.rows {
        return work_date(order, order.date.row(row));
    }
    Err(lacks_row())
}

// The nine times of a row's date, or the refusal of the order, of the row or of the day.
#[tactic(auto, unfolding(crate::specs::Calls::work_day_of, crate::specs::Calls::work_reading_of))]
pub fn work_day(order: &[u8], row: u32) -> Result<PrayerTimes, Refusal>
    ensures { result ≡ work_day_of order.now row }
{
    work_row(read(order)?, row)
}
