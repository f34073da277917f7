// Where the parts of a span begin (document 01, "A span"; 004, 6.1 and table 4). The numbers are those of specs/Layout.

// In the words of one stream, the first of the SAV being word 0.
pub const PICTURE: usize = 4;

pub const EAV: usize = PICTURE + 1920;

pub const LINE_NUMBER: usize = EAV + 4;

// The second word of the line number.
pub const LN1: usize = LINE_NUMBER + 1;

pub const CRCC: usize = LINE_NUMBER + 2;

pub const ANCILLARY: usize = CRCC + 2;

// XYZ is the fourth word of a timing code.
pub const SAV_XYZ: usize = 3;

pub const EAV_XYZ: usize = EAV + 3;

// In the symbols of one pair of streams, three for two words.
pub const PICTURE_SYMBOL: usize = 3 * PICTURE;

pub const EAV_SYMBOL: usize = 3 * EAV;

pub const ANCILLARY_SYMBOL: usize = 3 * ANCILLARY;
