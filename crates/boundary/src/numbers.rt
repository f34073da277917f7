// Numbers as callers from C give them. None is truncated: a number too large for the library's type becomes the largest of that type, and
// no field of a known format, no line, sample, word or symbol has that number, so that it is refused as the number itself would be.
ghost use Rattle.std.specs.Prelude.{◌≡◌, min};
ghost use Rattle.boundary.specs.Numbers.{content_from, disparity_from, picture_line_number, stream_line_number};
ghost use Rattle.symbol.specs.Disparity.{is_positive};
ghost use Rattle.span.specs.Format.{format_from};

use line::picture::PictureLine;
use line::stream::StreamLine;
use span::content::ContentBytes;
use span::format::Format;
use symbol::disparity::Disparity;

// A format by its numbers. It crosses whole, so that a field more leaves every call's parameters as they are.
#[repr(C)]
#[derive(Drop)]
pub struct FormatNumbers {
    pub number: u32,
    pub depth: u32,
    pub component: u32,
    pub structure: u32,
    pub size: u32,
}

// A line of a stream, 1 to 1125, and a line of a picture, 1 to 2160: one is not taken for the other.
#[repr(C)]
#[derive(Drop)]
pub struct StreamLineNumber {
    pub number: u32,
}

#[repr(C)]
#[derive(Drop)]
pub struct PictureLineNumber {
    pub number: u32,
}

// What the sender is asked for: the line, the disparity before the span, and the content bytes if they are named (C has no Option).
#[repr(C)]
#[derive(Drop)]
pub struct SendRequest {
    pub line: StreamLineNumber,
    pub positive: bool,
    pub named: bool,
    pub content: ContentBytes,
}

fn at_most_255(n: u32) -> u8
    ensures { result ≡ min n 255 }
{
    u8::try_from(n).unwrap_or(u8::MAX)
}

// The number of a line, a sample, a word or a symbol.
pub fn at_most_65535(n: u32) -> u16
    ensures { result ≡ min n 65535 }
{
    u16::try_from(n).unwrap_or(u16::MAX)
}

pub fn format_from(format: FormatNumbers) -> Format
    ensures { result ≡ format_from (min format.number 255) (min format.depth 255) (min format.component 255) (min format.structure 255) (min format.size 255) }
{
    span::format::format_of(
        at_most_255(format.number),
        at_most_255(format.depth),
        at_most_255(format.component),
        at_most_255(format.structure),
        at_most_255(format.size),
    )
}

pub fn stream_line_from(line: StreamLineNumber) -> StreamLine
    ensures { result.0 ≡ min line.number 65535 }
{
    line::stream::stream_line(at_most_65535(line.number))
}

pub fn picture_line_from(line: PictureLineNumber) -> PictureLine
    ensures { result.0 ≡ min line.number 65535 }
{
    line::picture::picture_line(at_most_65535(line.number))
}

// The number of a stream line, as it is answered.
pub fn stream_line_number(l: StreamLine) -> StreamLineNumber
    ensures { result ≡ stream_line_number l }
{
    StreamLineNumber {
        number: line::stream::number_of(l) as u32,
    }
}

// The number of a picture line, as it is answered: its own type in C, so that neither line is taken for the other.
pub fn picture_line_number(l: PictureLine) -> PictureLineNumber
    ensures { result ≡ picture_line_number l }
{
    PictureLineNumber {
        number: line::picture::number_of(l) as u32,
    }
}

// The content bytes asked for. Where none are named, what is in their place is not looked at.
pub fn content_from(named: bool, content: ContentBytes) -> Option<ContentBytes>
    ensures { result ≡ content_from named content }
{
    if named {
        return Some(content);
    }
    None
}

// The running disparity, whose two values are just those of a bool.
pub fn disparity_from(positive: bool) -> Disparity
    ensures { result ≡ disparity_from positive }
{
    if positive {
        return Disparity::Positive;
    }
    Disparity::Negative
}

pub fn is_positive(d: Disparity) -> bool
    ensures { result ≡ is_positive d }
{
    d == Disparity::Positive
}
