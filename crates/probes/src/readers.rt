// What both readers return, the whole record, as exports for the runs on random and damaged orders. A host calls the first one.
ghost use Rattle.std.specs.Prelude.{◌≡◌};
ghost use Rattle.order.specs.Reading.{reading_of};
ghost use Rattle.probes.specs.Readers.{answer_of};

use models::adjustments::TimeAdjustment;
use order::reading::Order;
use order::{plain, reading};
use order_numbers::numbers::{OrderNumbers, numbers_of};
use refusals::Refusal;

// What a host gets, and what the method brings to the record: 0 if the order is refused.
#[repr(C)]
#[derive(Clone, Copy)]
pub struct ProbeOrder {
    pub numbers: OrderNumbers,
    pub maghrib_angle: f64,
    pub method_minutes: TimeAdjustment,
}

fn answer(reading: Result<Order, Refusal>) -> ProbeOrder
    ensures { result ≡ answer_of reading }
{
    let numbers = numbers_of(reading);
    match reading {
        Ok(order) => {
            let parameters = order.setting.parameters;
            ProbeOrder {
                numbers,
                maghrib_angle: parameters.maghrib_angle,
                method_minutes: parameters.method_adjustments,
            }
        }
        Err(_) => ProbeOrder {
            numbers,
            maghrib_angle: 0.0,
            method_minutes: TimeAdjustment::NONE,
        },
    }
}

#[unsafe(no_mangle)]
pub extern "C" fn probe_read(order: &[u8]) -> ProbeOrder
    ensures { result ≡ answer_of (reading_of order.now) }
{
    answer(reading::read(order))
}

#[unsafe(no_mangle)]
pub extern "C" fn probe_plain(order: &[u8]) -> ProbeOrder
    ensures { result ≡ answer_of (reading_of order.now) }
{
    answer(plain::read(order))
}
