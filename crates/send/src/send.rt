// Sending a span (document 01, "Sending").
ghost use Rattle.std.specs.Prelude.{◌≡◌, true, length};
ghost use Rattle.encoder.specs.Inside.Tables.{offset_of, of_offset};
ghost use Rattle.line.specs.Stream.{is_line};
ghost use Rattle.span.specs.Format.{is_known, shape_of, samples_in, symbols_in};
ghost use Rattle.span.specs.Inside.Sample.{bounds_of};
ghost use Rattle.span.specs.Span.{span_symbols, span_after};
ghost use Rattle.request.specs.Send.{request, paper_sent, send_of, sent_buffer};
ghost use Rattle.send.specs.Inside.Put.{offset_after, put, scaled_words, span_put, AreWords, Fits};
ghost use Rattle.request.specs.Inside.Send.{Accepted};

use encoder::tables::Tables;
use line::stream::StreamLine;
use request::sent::SendError;
use span::content::ContentBytes;
use span::format::Format;
use symbol::disparity::Disparity;

// A span of words, as many as the format has. The tables are filled once, here, and lent from here on.
fn send_words(
    f: Format,
    l: StreamLine,
    d: Disparity,
    content: Option<ContentBytes>,
    words: &[u16],
    out: &mut [u16],
) -> Disparity
    requires f_value { is_known f ≡ true }
    requires are_words { AreWords words.now }
    requires words_len { length words.now ≡ samples_in (shape_of f) }
    requires out_len { length out.old ≡ symbols_in (shape_of f) }
    ensures after { result ≡ of_offset (offset_after (offset_of d) (span_put f l.0 content words.now)) }
    ensures symbols { out.new ≡ put (offset_of d) (span_put f l.0 content words.now) 0 out.old }
{
    let symbols = encoder::tables::symbol_table();
    let flips = encoder::tables::flip_table();
    let tables = Tables {
        symbols: &symbols,
        flips: &flips,
    };
    let p = span::format::shape_of(f);
    let c = span::content::content_of(f, content);
    let blank = span::blanking::blank_word(f);
    let before = encoder::tables::offset_of(d);
    let after = crate::parts::put_span(tables, p, l, c, blank, words, before, out);
    encoder::tables::disparity_at(after)
}

// Each sample by the factor that makes it a word.
fn scale(factor: u16, samples: &[u16], words: &mut [u16])
    requires fits { Fits factor samples.now }
    requires words_len { length words.old ≡ length samples.now }
    ensures { words.new ≡ scaled_words factor samples.now }
{
    for (i, sample) in samples.iter().enumerate() {
        words[i] = *sample * factor;
    }
}

// A span that may be sent, with room for its words.
fn send_scaled(
    f: Format,
    l: StreamLine,
    d: Disparity,
    content: Option<ContentBytes>,
    factor: u16,
    samples: &[u16],
    words: &mut [u16],
    out: &mut [u16],
) -> Disparity
    requires accepted { Accepted f (request l.0 content samples.now) }
    requires factor_value { factor ≡ (bounds_of f l.0).factor }
    requires words_len { length words.old ≡ length samples.now }
    requires out_len { length out.old ≡ symbols_in (shape_of f) }
    ensures after { result ≡ span_after d f (request l.0 content samples.now) }
    ensures symbols { out.new ≡ span_symbols d f (request l.0 content samples.now) }
{
    scale(factor, samples, words);
    send_words(f, l, d, content, words, out)
}

// A span that may be sent. Samples that are words already need no room of their own.
fn send_span(
    f: Format,
    l: StreamLine,
    d: Disparity,
    content: Option<ContentBytes>,
    factor: u16,
    samples: &[u16],
    out: &mut [u16],
) -> Disparity
    requires accepted { Accepted f (request l.0 content samples.now) }
    requires factor_value { factor ≡ (bounds_of f l.0).factor }
    requires out_len { length out.old ≡ symbols_in (shape_of f) }
    ensures after { result ≡ span_after d f (request l.0 content samples.now) }
    ensures symbols { out.new ≡ span_symbols d f (request l.0 content samples.now) }
{
    if factor == 1 {
        return send_words(f, l, d, content, samples, out);
    }
    let n = samples.len();
    let mut words = [0u16; 7680];
    send_scaled(f, l, d, content, factor, samples, &mut words[..n], out)
}

// A call whose format, line and lengths are good. Its samples are still to be checked.
fn send_samples(
    f: Format,
    l: StreamLine,
    d: Disparity,
    content: Option<ContentBytes>,
    samples: &[u16],
    symbols: &mut [u16],
) -> Result<Disparity, SendError>
    requires f_value { is_known f ≡ true }
    requires l_value { is_line l.0 ≡ true }
    requires samples_len { length samples.now ≡ samples_in (shape_of f) }
    requires symbols_len { length symbols.old ≡ symbols_in (shape_of f) }
    ensures answer { paper_sent result ≡ send_of d f (request l.0 content samples.now) (length symbols.old) }
    ensures symbols { symbols.new ≡ sent_buffer d f (request l.0 content samples.now) symbols.old }
{
    let bounds = span::sample::bounds_of(f, l);
    if let Some(wrong) = crate::check::first_outside(bounds.low, bounds.high, samples) {
        return Err(SendError::NotAllowed(wrong));
    }
    Ok(send_span(f, l, d, content, bounds.factor, samples, symbols))
}

// The span of a line: its symbols into the buffer, from the running disparity before it. The samples are stream by stream.
pub fn send(
    f: Format,
    l: StreamLine,
    d: Disparity,
    content: Option<ContentBytes>,
    samples: &[u16],
    symbols: &mut [u16],
) -> Result<Disparity, SendError>
    ensures answer { paper_sent result ≡ send_of d f (request l.0 content samples.now) (length symbols.old) }
    ensures symbols { symbols.new ≡ sent_buffer d f (request l.0 content samples.now) symbols.old }
{
    if !span::format::is_known(f) {
        return Err(SendError::UnknownFormat);
    }
    if !line::stream::is_line(l) {
        return Err(SendError::NoLine);
    }
    let lengths = span::length::span_lengths(f);
    if samples.len() != lengths.samples {
        return Err(SendError::WrongInput);
    }
    if symbols.len() != lengths.symbols {
        return Err(SendError::WrongOutput);
    }
    send_samples(f, l, d, content, samples, symbols)
}
