// What reading a span answers (document 01, "Receiving and finding").
use line::stream::StreamLine;
use span::content::ContentBytes;
use symbol::disparity::Disparity;

// What was corrected in the timing words: the number of wrong bits in all of them together, which is the sum of the words' distances, and
// how many of these were each of the twelve bits, b0, the lowest, first (004, table 6).
#[derive(Clone, Copy)]
pub struct Repairs {
    pub count: u8,
    pub of_bit: [u8; 12],
}

// The line n whose SAV begins the span, the content bytes, the disparity before the span and after it, and the repairs.
#[derive(Clone, Copy)]
pub struct Delivery {
    pub line: StreamLine,
    pub content: ContentBytes,
    pub before: Disparity,
    pub after: Disparity,
    pub repairs: Repairs,
}
