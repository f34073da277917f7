// The two calls (document 01, "Receiving and finding").
ghost use Rattle.std.specs.Prelude.{◌≡◌, length};
ghost use Rattle.span.specs.Format.{shape_of, samples_in};
ghost use Rattle.window.specs.Read.{picture_of, read_span, judge_of, read_of, rows_left, rows_read};
ghost use Rattle.read_test20.specs.Inside.Run.{place20};
ghost use Rattle.read_test20.specs.Inside.Whole.{valid_of};
ghost use Rattle.read.specs.Call.{paper_read};
ghost use Rattle.window.specs.Inside.Window.{IsWindow};

use crate::answer::ReadError;
use read_test20::whole::Valid;
use span::format::Format;
use window::delivery::Delivery;

// A window for which test 20 holds, with its picture in rows: what it delivers, or the first of tests 21 to 26 that does not hold.
fn read_words(f: Format, symbols: &[u16], v: Valid, rows: &[u16]) -> Result<Delivery, ReadError>
    requires window { IsWindow f symbols.now }
    requires symbols_value { place20 (shape_of f) symbols.now ≡ length symbols.now }
    requires v_value { v ≡ valid_of (shape_of f) symbols.now }
    requires rows_value { rows.now ≡ picture_of f symbols.now }
    ensures { paper_read result ≡ read_span f symbols.now }
{
    let service = read_test21_26::call::service_of(f, symbols, v.sums)?;
    crate::picture::judge_picture(f, symbols, service.line, v.filled, rows)?;
    Ok(crate::delivery::delivery(v, service))
}

// A window, into rows of its format's length, which are zero if it is not delivered.
fn read_window(f: Format, symbols: &[u16], rows: &mut [u16]) -> Result<Delivery, ReadError>
    requires window { IsWindow f symbols.now }
    requires rows_len { length rows.old ≡ samples_in (shape_of f) }
    ensures answer { paper_read result ≡ read_span f symbols.now }
    ensures rows { rows.new ≡ rows_left (read_span f symbols.now) rows.old (picture_of f symbols.now) }
{
    let v = read_test20::whole::take(f, symbols, rows)?;
    let read = read_words(f, symbols, v, rows);
    if read.is_err() {
        rows.fill(0);
    }
    read
}

// Reads exactly one span, into s x 1920 words stream by stream.
pub fn read(f: Format, symbols: &[u16], rows: &mut [u16]) -> Result<Delivery, ReadError>
    ensures answer { paper_read result ≡ read_of f symbols.now (length rows.old) }
    ensures rows { rows.new ≡ rows_read f symbols.now rows.old }
{
    if !span::format::is_known(f) {
        return Err(ReadError::UnknownFormat);
    }
    let lengths = span::length::span_lengths(f);
    if symbols.len() != lengths.symbols {
        return Err(ReadError::WrongInput);
    }
    if rows.len() != lengths.samples {
        return Err(ReadError::WrongOutput);
    }
    read_window(f, symbols, rows)
}

// Judges exactly one span: what reading it would answer. The picture goes into rows of its own.
pub fn judge(f: Format, symbols: &[u16]) -> Result<Delivery, ReadError>
    ensures { paper_read result ≡ judge_of f symbols.now }
{
    if !span::format::is_known(f) {
        return Err(ReadError::UnknownFormat);
    }
    let lengths = span::length::span_lengths(f);
    if symbols.len() != lengths.symbols {
        return Err(ReadError::WrongInput);
    }
    let mut rows = [0u16; 7680];
    let n = lengths.samples;
    read_window(f, symbols, &mut rows[..n])
}
