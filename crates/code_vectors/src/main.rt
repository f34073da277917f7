// Writes the whole code, to be compared with the published one: for each character at each disparity, its symbol and the disparity after;
// for each symbol, and for two numbers that are not symbols, what it decodes to at each disparity, what it means and where it is legal.
#![tactic(auto)]

mod print;

use decoder::decode::decode;
use decoder::meaning::meaning_of;
use encoder::encode::{encode_byte, encode_special};
use print::{DecodedAs, Means, Name, Sign};
use std::io;
use symbol::character::Character;
use symbol::disparity::Disparity;
use symbol::special;

const DISPARITIES: [Disparity; 2] = [Disparity::Negative, Disparity::Positive];

fn character_lines(rt: &impl Print, c: Character) -> io::Result<()> {
    for d in DISPARITIES {
        let e = match c {
            Character::Byte(b) => encode_byte(d, b),
            Character::Special(k) => encode_special(d, k),
        };
        let before = Sign(d);
        let after = Sign(e.after);
        println!(rt; "{} {before} {:03x} {after}", Name(c), e.symbol)?;
    }
    Ok(())
}

fn symbol_line(rt: &impl Print, s: u16) -> io::Result<()> {
    let [negative, positive] = DISPARITIES.map(|d| DecodedAs(decode(d, s)));
    let means = Means(meaning_of(s));
    println!(rt; "{s:03x} {negative} {positive} {means}")
}

fn main(rt: HostRuntime) -> io::Result<()> {
    for b in 0..=255 {
        character_lines(&rt, Character::Byte(b))?;
    }
    for n in 0..12 {
        character_lines(&rt, Character::Special(special::named(n)))?;
    }
    for s in 0..1024 {
        symbol_line(&rt, s)?;
    }
    symbol_line(&rt, 1024)?;
    symbol_line(&rt, 65535)
}
