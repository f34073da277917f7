// What a span delivers, apart from the rows.
ghost use Rattle.std.specs.Prelude.{◌≡◌};

use read_test20::whole::Valid;
use read_test21_26::call::Service;
use window::delivery::Delivery;

// The values of a delivery.
pub(crate) fn delivery(v: Valid, service: Service) -> Delivery
    ensures { result ≡ record { line = service.line; content = service.content; before = v.before; after = v.after; repairs = service.repairs } }
{
    Delivery {
        line: service.line,
        content: service.content,
        before: v.before,
        after: v.after,
        repairs: service.repairs,
    }
}
