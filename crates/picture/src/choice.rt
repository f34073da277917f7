// The row that a stream line carries: a row of the picture, or a blanking row (01, "Sending").
ghost use Rattle.std.specs.Prelude.{◌≡◌};
ghost use Rattle.picture.specs.Choice.{row_on};

use line::stream::StreamLine;

// One of the two rows passed in, whatever its length: the picture on lines 42 to 1121, the blanking on any other number.
pub fn row_on<'a>(l: StreamLine, picture: &'a [u16], blanking: &'a [u16]) -> &'a [u16]
    ensures { result ≡ row_on l.0 picture.entry blanking.entry }
{
    if ground::range::within(42, 1121, line::stream::number_of(l)) {
        return picture;
    }
    blanking
}
