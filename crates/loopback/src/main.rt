// The loopback rig: a test picture over one link, line by line through a whole frame, with one plug knocked. Eight bytes from standard
// input say where and for how long; the picture that arrives goes to a file, and a summary of what was lost to standard output. What cannot
// be opened or written is said on standard error.
#![tactic(auto)]

mod file;
mod frame;
mod input;

use rig::knock::Knock;
use std::env::FillError;
use std::io::Write;
use std::rt::{Env, Files};
use std::{fs, io, str};

// The name that the first argument has, or loopback.pgm; none if it is too long or no text.
fn name_of_picture<'a>(rt: &impl Env, path: &'a mut [u8; 4096]) -> Option<&'a str> {
    match rt.arg(1, path) {
        Ok(n) => str::from_utf8(&path[..n]).ok(),
        Err(FillError::NotPresent) => Some("loopback.pgm"),
        Err(FillError::TooLong) => None,
    }
}

// Opens the picture's file anew; none if it cannot be opened, which is reported.
fn open_picture<R: Env + Files + Eprint>(rt: &R) -> io::Result<Option<R::File>> {
    let mut path = [0u8; 4096];
    let Some(name) = name_of_picture(rt, &mut path) else {
        eprintln!(rt; "the name of the picture: too long, or no text")?;
        return Ok(None);
    };
    match fs::create(rt, name) {
        Ok(file) => Ok(Some(file)),
        Err(e) => {
            eprintln!(rt; "{name}: {e}")?;
            Ok(None)
        }
    }
}

// What was lost, as text.
fn print_summary(rt: &(impl Print + Eprint), heard: &[u16]) -> io::Result<()> {
    let mut text = [0u8; 256];
    if let Ok(end) = reception::summary::put_summary(heard, &mut text) {
        if let Err(e) = rt.write_all(&text[..end]) {
            eprintln!(rt; "the summary: {e}")?;
        }
    }
    Ok(())
}

fn write_header(out: &mut impl Write) -> io::Result<()> {
    let mut head = [0u8; 32];
    let n = file::put_header(&mut head);
    out.write_all(&head[..n])
}

// The picture after its header, and then the summary.
fn run(rt: &(impl Print + Eprint), out: &mut impl Write, k: Knock) -> io::Result<()> {
    let mut heard = [0u16; 1125];
    let mut picture = [0u16; 38400];
    let mut bytes = [0u8; 76800];
    if let Err(e) = write_header(out) {
        return eprintln!(rt; "the picture: {e}");
    }
    match frame::write_frame(out, k, &mut heard, &mut picture, &mut bytes) {
        Ok(_) => print_summary(rt, &heard),
        Err(e) => eprintln!(rt; "the picture: {e}"),
    }
}

fn main(rt: HostRuntime) -> io::Result<()> {
    let mut input = [0u8; 8];
    let n = intake::reading::read_full(&mut rt.reader(), &mut input)?;
    let k = input::knock_of(&input[..n]);
    let Some(mut picture) = open_picture(&rt)? else {
        return Ok(());
    };
    run(&rt, &mut picture, k)
}
