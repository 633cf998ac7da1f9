// The minutes of all rows: each row's Fajr by the clock, or None if its day is refused.
ghost use Rattle.std.specs.Prelude.{◌≡◌, ℕ, ◌<◌, ◌≤◌};
ghost use Rattle.integers.specs.Quotients.{floor_quot};
ghost use Rattle.order.specs.Accepted.{Accepted};
ghost use Rattle.weeks.specs.Kept.{minute_from, minute_in_list};
ghost use Rattle.weeks.specs.Report.{row_minute};

use calendar::instants::{MINUTES_IN_DAY, day_of, second_of_day};
use order::reading::{MOST_ROWS, Order};
use schedule::rolling::RowSuns;

pub const ROWS: usize = MOST_ROWS as usize;

// Whole minutes, rounded down, also below zero.
fn whole_minutes(seconds: i64) -> i64
    ensures { result ≡ floor_quot seconds 60 }
{
    day_of(seconds) * MINUTES_IN_DAY as i64 + (second_of_day(seconds) / 60) as i64
}

// A row's minute from its Fajr.
#[tactic(auto, unfolding(crate::specs::Kept::minute_from))]
fn minute_from(fajr: Option<i64>) -> Option<i64>
    ensures { result ≡ minute_from fajr }
{
    fajr.map(whole_minutes)
}

// Works the rows of an order; what lies behind them stays. Each row uses what the row before it has worked. The array is lent: handed out,
// it would be twice on the stack.
pub fn work_minutes(order: Order, minutes: &mut [Option<i64>; ROWS])
    requires { Accepted order }
    ensures rows { (k : ℕ) → k < order.rows → minute_in_list minutes.new k ≡ row_minute order k }
    ensures rest { (k : ℕ) → order.rows ≤ k → minute_in_list minutes.new k ≡ minute_in_list minutes.old k }
{
    let mut suns = RowSuns::new(order.date, order.setting);
    for row in 0..order.rows as usize {
        if row > 0 {
            suns = suns.next(order.setting);
        }
        minutes[row] = minute_from(suns.fajr(order.setting));
    }
}
