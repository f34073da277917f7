// The samples of the test picture that a link carries: those of the first images.
ghost use Rattle.std.specs.Prelude.{◌≡◌, true, ◌++◌, ◌+◌, ◌≤◌, length};
ghost use Rattle.std.proofs.lemmas.List.Edits.{sets};
ghost use Rattle.picture.specs.Choice.{row_on};
ghost use Rattle.dividing.specs.Row.{divided};
ghost use Rattle.span.specs.Format.{is_known, shape_of, samples_in};
ghost use Rattle.test_picture.specs.Putting.{paper_put, samples_answer, samples_put};
ghost use Rattle.test_picture.specs.TestPicture.{code_step, row_in_steps, test_samples};

use crate::answer::PutError;
use line::picture::PictureLine;
use line::stream::StreamLine;
use span::format::Format;

// How many twelve-bit codes make one code at the depth of a format.
fn step_of(f: Format) -> u16
    ensures { result ≡ code_step f }
{
    if span::format::depth_of(f) == 10 {
        4
    } else {
        1
    }
}

// A row of the picture, divided: the row of its first image and then that of its second, from a place on.
fn put_images(line: PictureLine, step: u16, samples: &mut [u16], at: usize)
    requires le_step { 1 ≤ step }
    requires at_in_bounds { at + 3840 ≤ length samples.old }
    ensures { samples.new ≡ sets samples.old at (divided 0 1920 (row_in_steps step line.0) ++ divided 1 1920 (row_in_steps step line.0)) }
{
    let mut row = [0; 3840];
    let mut first = [0; 1920];
    let mut second = [0; 1920];
    crate::row::put_codes(line, step, &mut row);
    // The lengths are those of a row and its images: nothing is refused.
    let _ = dividing::split::split(&row, &mut first, &mut second);
    crate::copy::copy_to(&first, samples, at);
    crate::copy::copy_to(&second, samples, at + 1920);
}

// The picture's samples on a stream line: the rows of the picture lines that it carries, a row for each two streams. A blanking line carries
// none, and leaves the samples as they were.
fn put_picture(f: Format, l: StreamLine, samples: &mut [u16])
    requires samples_len { length samples.old ≡ samples_in (shape_of f) }
    ensures { samples.new ≡ row_on l.0 (test_samples f l.0) samples.old }
{
    let step = step_of(f);
    let rows = span::format::shape_of(f).stream_pairs;
    for i in 0..rows {
        // images 2i + 1 and 2i + 2 are those of one line
        let Some(line) = picture::place::picture_line_on(l, (2 * i + 1) as u8) else {
            return;
        };
        put_images(line, step, samples, 3840 * i);
    }
}

// The samples of a line, by the choice of row (01, "Sending"): the picture's or a blanking row, each made in memory lent for it.
fn put_chosen(
    f: Format,
    l: StreamLine,
    shown: &mut [u16],
    blanking: &mut [u16],
    samples: &mut [u16],
)
    requires f_value { is_known f ≡ true }
    requires shown_len { length shown.old ≡ samples_in (shape_of f) }
    requires blanking_len { length blanking.old ≡ samples_in (shape_of f) }
    requires samples_len { length samples.old ≡ samples_in (shape_of f) }
    ensures { samples.new ≡ test_samples f l.0 }
{
    put_picture(f, l, shown);
    // The format is known, and the row as long as it asks: nothing is refused.
    let _ = span::blanking::fill_blanking(f, blanking);
    let chosen = picture::choice::row_on(l, shown, blanking);
    crate::copy::copy_to(chosen, samples, 0);
}

// The samples of a line into a row that has room for them.
fn put_line(f: Format, l: StreamLine, samples: &mut [u16])
    requires f_value { is_known f ≡ true }
    requires samples_len { length samples.old ≡ samples_in (shape_of f) }
    ensures { samples.new ≡ test_samples f l.0 }
{
    let mut shown = [0; 7680];
    let mut blanking = [0; 7680];
    let n = samples.len();
    put_chosen(f, l, &mut shown[..n], &mut blanking[..n], samples);
}

// The samples of a stream line, stream by stream.
pub fn put_samples(f: Format, l: StreamLine, samples: &mut [u16]) -> Result<(), PutError>
    ensures answer { paper_put result ≡ samples_answer f l.0 samples.old }
    ensures samples { samples.new ≡ samples_put f l.0 samples.old }
{
    if !span::format::is_known(f) {
        return Err(PutError::UnknownFormat);
    }
    if !line::stream::is_line(l) {
        return Err(PutError::NoLine);
    }
    if samples.len() != span::length::span_lengths(f).samples {
        return Err(PutError::WrongOutput);
    }
    put_line(f, l, samples);
    Ok(())
}
