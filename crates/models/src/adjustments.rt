// adjustments.rs: minutes to add to each of six times; they may be negative. They are i32 here because the sum of two then fits an i64.
ghost use Rattle.std.specs.Prelude.{◌≡◌};
ghost use Rattle.models.specs.Minutes.{six_minutes_of, no_minutes, builder_of};

#[repr(C)]
#[derive(Clone, Copy)]
pub struct TimeAdjustment {
    pub fajr: i32,
    pub sunrise: i32,
    pub dhuhr: i32,
    pub asr: i32,
    pub maghrib: i32,
    pub isha: i32,
}

impl TimeAdjustment {
    pub const NONE: TimeAdjustment = TimeAdjustment {
        fajr: 0,
        sunrise: 0,
        dhuhr: 0,
        asr: 0,
        maghrib: 0,
        isha: 0,
    };

    pub fn new(
        fajr: i32,
        sunrise: i32,
        dhuhr: i32,
        asr: i32,
        maghrib: i32,
        isha: i32,
    ) -> TimeAdjustment
        ensures { result ≡ six_minutes_of fajr sunrise dhuhr asr maghrib isha }
    {
        TimeAdjustment {
            fajr,
            sunrise,
            dhuhr,
            asr,
            maghrib,
            isha,
        }
    }
}

impl Default for TimeAdjustment {
    ghost is_default = { λ m. m ≡ no_minutes };

    fn default() -> TimeAdjustment {
        TimeAdjustment::NONE
    }
}

// Builds a TimeAdjustment, a field at a time.
#[derive(Clone, Copy)]
pub struct Adjustment {
    pub minutes: TimeAdjustment,
}

impl Adjustment {
    pub fn new() -> Adjustment
        ensures { result ≡ builder_of no_minutes }
    {
        Adjustment {
            minutes: TimeAdjustment::NONE,
        }
    }

    pub fn fajr(mut self, fajr: i32) -> Adjustment
        ensures { result ≡ builder_of (record self.minutes { fajr = fajr }) }
    {
        self.minutes.fajr = fajr;
        self
    }

    pub fn sunrise(mut self, sunrise: i32) -> Adjustment
        ensures { result ≡ builder_of (record self.minutes { sunrise = sunrise }) }
    {
        self.minutes.sunrise = sunrise;
        self
    }

    pub fn dhuhr(mut self, dhuhr: i32) -> Adjustment
        ensures { result ≡ builder_of (record self.minutes { dhuhr = dhuhr }) }
    {
        self.minutes.dhuhr = dhuhr;
        self
    }

    pub fn asr(mut self, asr: i32) -> Adjustment
        ensures { result ≡ builder_of (record self.minutes { asr = asr }) }
    {
        self.minutes.asr = asr;
        self
    }

    pub fn maghrib(mut self, maghrib: i32) -> Adjustment
        ensures { result ≡ builder_of (record self.minutes { maghrib = maghrib }) }
    {
        self.minutes.maghrib = maghrib;
        self
    }

    pub fn isha(mut self, isha: i32) -> Adjustment
        ensures { result ≡ builder_of (record self.minutes { isha = isha }) }
    {
        self.minutes.isha = isha;
        self
    }

    pub fn done(self) -> TimeAdjustment
        ensures { result ≡ self.minutes }
    {
        self.minutes
    }
}
