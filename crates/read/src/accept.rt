// A span as the finder asks for it: what it delivers, or that it is refused, by whichever test and at whichever place. So nothing is
// searched for, and rows that are the finder's own are not cleared.
ghost use Rattle.std.specs.Prelude.{◌≡◌, true, length};
ghost use Rattle.span.specs.Format.{shape_of};
ghost use Rattle.window.specs.Read.{picture_of, read_span, read_of};
ghost use Rattle.window.specs.Inside.Fill.{fill_right};
ghost use Rattle.window.specs.Inside.Window.{IsWindow};
ghost use Rattle.read_test20.specs.Inside.Run.{place20};
ghost use Rattle.read_test20.specs.Inside.Whole.{valid_of};
ghost use Rattle.read.specs.Inside.Accept.{accepted_in, delivered_in, rows_accepted};

use read_test20::whole::Valid;
use span::format::Format;
use window::delivery::Delivery;

// A window for which tests 20 and 26 hold, with its picture in rows.
fn accept_words(f: Format, symbols: &[u16], v: Valid, rows: &[u16]) -> Option<Delivery>
    requires window { IsWindow f symbols.now }
    requires symbols_value { place20 (shape_of f) symbols.now ≡ length symbols.now }
    requires v_value { v ≡ valid_of (shape_of f) symbols.now }
    requires symbols_value_2 { fill_right (shape_of f) symbols.now ≡ true }
    requires rows_value { rows.now ≡ picture_of f symbols.now }
    ensures { accepted_in result ≡ delivered_in (read_span f symbols.now) }
{
    let service = read_test21_26::call::service_of(f, symbols, v.sums).ok()?;
    if crate::picture::picture_is_right(f, service.line, rows) {
        return Some(crate::delivery::delivery(v, service));
    }
    None
}

// Reads exactly one span, into s x 1920 words stream by stream. The rows have the picture if it is delivered, and else may hold anything.
pub fn accept(f: Format, symbols: &[u16], rows: &mut [u16]) -> Option<Delivery>
    ensures answer { accepted_in result ≡ delivered_in (read_of f symbols.now (length rows.old)) }
    ensures rows { rows.new ≡ rows_accepted (read_of f symbols.now (length rows.old)) (picture_of f symbols.now) rows.new }
{
    let v = read_test20::whole::examine(f, symbols, rows)?;
    accept_words(f, symbols, v, rows)
}
