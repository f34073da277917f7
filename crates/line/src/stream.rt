// The lines of a basic stream: 1 to 1125 (004, table 5).
ghost use Rattle.std.specs.Prelude.{◌≡◌};
ghost use Rattle.line.specs.Stream.{is_line, is_active, v_of, line_after, line_before};

// A line of a stream by its number. A caller may have any number, even 0: the calls that take a line refuse an invalid one.
#[derive(Clone, Copy)]
pub struct StreamLine(u16);

// The line with a number, for the edges: programs, the C boundary, line number words.
pub fn stream_line(n: u16) -> StreamLine
    ensures { result.0 ≡ n }
{
    StreamLine(n)
}

// The number of a line, for the same edges.
pub fn number_of(l: StreamLine) -> u16
    ensures { result ≡ l.0 }
{
    l.0
}

// Whether a stream has the line.
pub fn is_line(l: StreamLine) -> bool
    ensures { result ≡ is_line l.0 }
{
    ground::range::within(1, 1125, l.0)
}

// Whether it carries a line of the picture: another range of the same test.
pub fn is_active(l: StreamLine) -> bool
    ensures { result ≡ is_active l.0 }
{
    ground::range::within(42, 1121, l.0)
}

// V of its timing words: 1 in frame blanking.
pub fn v_of(l: StreamLine) -> bool
    ensures { result ≡ v_of l.0 }
{
    !is_active(l)
}

// The line after: 1 after 1125.
pub fn line_after(l: StreamLine) -> StreamLine
    ensures { result.0 ≡ line_after l.0 }
{
    if l.0 < 1125 {
        return StreamLine(l.0 + 1);
    }
    StreamLine(1)
}

// The line before: 1125 before 1, never 0.
pub fn line_before(l: StreamLine) -> StreamLine
    ensures { result.0 ≡ line_before l.0 }
{
    if ground::range::within(2, 1125, l.0) {
        return StreamLine(l.0 - 1);
    }
    StreamLine(1125)
}
