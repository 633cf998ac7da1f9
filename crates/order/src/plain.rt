// The plain reader (request 5): it checks the fields in one pass and collects them in another. `reading` is proved to return the same for
// any bytes: both have the same definition, which describes these two passes.
ghost use Rattle.std.specs.Prelude.{◌≡◌};
ghost use Rattle.order.specs.Reading.{reading_of};

use super::reading::answer;
use crate::reading::Order;
use fields::plain::fields_of;
use fields::values::Given;
use refusals::Refusal;

#[tactic(auto, unfolding(crate::specs::Reading::reading_of, fields::specs::Values::checked_of, crate::specs::Reading::first_of, refusals::specs::Refusals::unless_refused))]
pub fn read(order: &[u8]) -> Result<Order, Refusal>
    ensures { result ≡ reading_of order.now }
{
    let fields = fields_of(order)?;
    answer(Given {
        order,
        fields: &fields,
    })
}
