// The earliest and the latest Fajr of seven successive rows, and the first row that has each. The rows are looked through one by one.
ghost use Rattle.std.specs.Prelude.{◌≡◌, ◌+◌, ◌≤◌, length};
ghost use Rattle.weeks.specs.Kept.{minute_in_list};
ghost use Rattle.weeks.specs.Windows.{earlier_in, extremes, later_in, window_of};

#[derive(Clone, Copy)]
pub struct Extremes {
    pub earliest: i64,
    pub earliest_row: usize,
    pub latest: i64,
    pub latest_row: usize,
}

impl Extremes {
    // Those of a window's first row by itself.
    fn new(row: usize, minute: i64) -> Extremes
        ensures { result ≡ extremes minute row minute row }
    {
        Extremes {
            earliest: minute,
            earliest_row: row,
            latest: minute,
            latest_row: row,
        }
    }

    // Those of one row more.
    fn with(mut self, row: usize, minute: i64) -> Extremes
        ensures { result ≡ later_in (earlier_in self row minute) row minute }
    {
        if minute < self.earliest {
            self.earliest = minute;
            self.earliest_row = row;
        }
        if self.latest < minute {
            self.latest = minute;
            self.latest_row = row;
        }
        self
    }
}

// The window of the seven rows from `first` on.
pub fn window_from(minutes: &[Option<i64>], first: usize) -> Option<Extremes>
    requires { first + 7 ≤ length minutes.now }
    ensures { result ≡ window_of (minute_in_list minutes.now) first }
{
    let mut window = Extremes::new(first, minutes[first]?);
    for row in first + 1..first + 7 {
        window = window.with(row, minutes[row]?);
    }
    Some(window)
}
