// How disparities, characters and what a symbol stands for are printed.
use decoder::decode::{DecodeError, Decoded};
use decoder::meaning::{Above1023, Legal, Meaning};
use std::fmt;
use symbol::character::Character;
use symbol::disparity::Disparity;
use symbol::special::Special;

// A disparity by its sign.
#[derive(Clone, Copy)]
pub(crate) struct Sign(pub(crate) Disparity);

impl fmt::Display for Sign {
    fn fmt<W: fmt::Write>(&self, f: &mut fmt::Formatter<W>) -> fmt::Result {
        f.write_str(match self.0 {
            Disparity::Negative => "-",
            Disparity::Positive => "+",
        })
    }
}

fn published(k: Special) -> &'static str {
    match k {
        Special::K28_0 => "K28.0",
        Special::K28_1 => "K28.1",
        Special::K28_2 => "K28.2",
        Special::K28_3 => "K28.3",
        Special::K28_4 => "K28.4",
        Special::K28_5 => "K28.5",
        Special::K28_6 => "K28.6",
        Special::K28_7 => "K28.7",
        Special::K23_7 => "K23.7",
        Special::K27_7 => "K27.7",
        Special::K29_7 => "K29.7",
        Special::K30_7 => "K30.7",
    }
}

// A byte in two hexadecimal digits, or a special character by its published name.
#[derive(Clone, Copy)]
pub(crate) struct Name(pub(crate) Character);

impl fmt::Display for Name {
    fn fmt<W: fmt::Write>(&self, f: &mut fmt::Formatter<W>) -> fmt::Result {
        match self.0 {
            Character::Byte(b) => write!(f, "{b:02x}"),
            Character::Special(k) => f.write_str(published(k)),
        }
    }
}

// What a symbol is decoded to: the character and the sign of the disparity after it, or the number of the refusal.
#[derive(Clone, Copy)]
pub(crate) struct DecodedAs(pub(crate) Result<Decoded, DecodeError>);

impl fmt::Display for DecodedAs {
    fn fmt<W: fmt::Write>(&self, f: &mut fmt::Formatter<W>) -> fmt::Result {
        match self.0 {
            Ok(d) => write!(f, "{}{}", Name(d.character), Sign(d.after)),
            Err(DecodeError::Above1023) => f.write_str("7"),
            Err(DecodeError::Illegal) => f.write_str("20"),
        }
    }
}

// The signs of the disparities at which a symbol is legal.
#[derive(Clone, Copy)]
struct Signs(Legal);

impl fmt::Display for Signs {
    fn fmt<W: fmt::Write>(&self, f: &mut fmt::Formatter<W>) -> fmt::Result {
        f.write_str(if self.0.negative { "-" } else { "" })?;
        f.write_str(if self.0.positive { "+" } else { "" })
    }
}

// What a symbol means: the character and where it is legal, that it is none, or the number of the refusal.
#[derive(Clone, Copy)]
pub(crate) struct Means(pub(crate) Result<Option<Meaning>, Above1023>);

impl fmt::Display for Means {
    fn fmt<W: fmt::Write>(&self, f: &mut fmt::Formatter<W>) -> fmt::Result {
        match self.0 {
            Ok(Some(m)) => write!(f, "{} {}", Name(m.character), Signs(m.legal)),
            Ok(None) => f.write_str("none"),
            Err(Above1023) => f.write_str("7"),
        }
    }
}
