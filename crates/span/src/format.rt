// Formats as the caller wrote them, and what the known ones mean (document 01, "A span").
ghost use Rattle.std.specs.Prelude.{◌≡◌};
ghost use Rattle.span.specs.Format.{format_from, plain_format, is_depth, is_known as known, is_difference, shape_of};

// What both ends of a link have agreed on, as the caller wrote it. Any numbers may stand here: the calls that take a format refuse an unknown
// one. 0 is unknown in every field, so that one which was forgotten is refused and not guessed.
#[derive(Clone, Copy)]
pub struct Format {
    // 1, 2, 3: 120, 100, 50 Hz.
    number: u8,
    // 10, 12 bits.
    depth: u8,
    // What the link carries: 1 G', 2 B', 3 R', 4 Y', 5 C'B, 6 C'R.
    component: u8,
    // 1: 4:4:4.
    structure: u8,
    // 1: 4K.
    size: u8,
}

// 1: there is no such format.
#[derive(Clone, Copy, Debug, PartialEq, Eq)]
pub struct UnknownFormat;

// The pairs of streams, the ancillary words per stream, the pairs of fill words.
#[derive(Clone, Copy)]
pub struct Shape {
    pub stream_pairs: usize,
    pub ancillary: usize,
    pub fill_pairs: usize,
}

// The one place where a format is made.
pub fn format_of(number: u8, depth: u8, component: u8, structure: u8, size: u8) -> Format
    ensures { result ≡ format_from number depth component structure size }
{
    Format {
        number,
        depth,
        component,
        structure,
        size,
    }
}

// The format of document 01's base: G', 4:4:4, 4K.
pub fn plain_format(number: u8, depth: u8) -> Format
    ensures { result ≡ plain_format number depth }
{
    format_of(number, depth, 1, 1, 1)
}

fn is_depth(depth: u8) -> bool
    ensures { result ≡ is_depth depth }
{
    if depth == 10 {
        return true;
    }
    depth == 12
}

// Whether there is such a format.
pub fn is_known(f: Format) -> bool
    ensures { result ≡ known f }
{
    if ground::range::within(1, 3, f.number as u16) {
        if is_depth(f.depth) {
            if ground::range::within(1, 6, f.component as u16) {
                if f.structure == 1 {
                    return f.size == 1;
                }
            }
        }
    }
    false
}

// The bits per sample.
pub fn depth_of(f: Format) -> u8
    ensures { result ≡ f.depth }
{
    f.depth
}

// Whether the link carries a colour difference, C'B or C'R.
pub fn is_difference(f: Format) -> bool
    ensures { result ≡ is_difference f }
{
    ground::range::within(5, 6, f.component as u16)
}

// The shape of a format; all zeros if it is unknown. No Option: definitions over the shape are total, and `is_known` is asked first.
pub fn shape_of(f: Format) -> Shape
    ensures { result ≡ shape_of f }
{
    if f.number == 1 {
        return Shape {
            stream_pairs: 1,
            ancillary: 268,
            fill_pairs: 440,
        };
    }
    if f.number == 2 {
        return Shape {
            stream_pairs: 1,
            ancillary: 708,
            fill_pairs: 528,
        };
    }
    if f.number == 3 {
        return Shape {
            stream_pairs: 2,
            ancillary: 708,
            fill_pairs: 1056,
        };
    }
    Shape {
        stream_pairs: 0,
        ancillary: 0,
        fill_pairs: 0,
    }
}
