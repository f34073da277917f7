// The CRC of each stream over its picture words (004, 6.4); with two streams the last two are unused.
#[derive(Clone, Copy)]
pub struct Sums {
    pub first: u32,
    pub second: u32,
    pub third: u32,
    pub fourth: u32,
}
