// Text put into a lent buffer.
ghost use Rattle.std.specs.Prelude.{◌≡◌, ◌+◌, ◌≤◌, length};
ghost use Rattle.std.proofs.lemmas.List.Edits.{sets};
ghost use Rattle.text.specs.Put.{end_of, put_of};

// Puts a text that fits, from a place on.
#[tactic(auto, using(crate::proofs::Stores::stores))]
fn put_all(text: &[u8], out: &mut [u8], at: usize) -> usize
    requires { at + length text.now ≤ length out.old }
    ensures end { result ≡ at + length text.now }
    ensures written { out.new ≡ sets out.old at text.now }
{
    let end = at + text.len();
    out[at..end].copy_from_slice(text);
    end
}

// Puts a text at a place and answers where it ends; if it does not fit, nothing is put, and the answer is the place.
pub fn put_text(text: &[u8], out: &mut [u8], at: usize) -> usize
    ensures end { result ≡ end_of (length out.old) at text.now }
    ensures written { out.new ≡ put_of out.old at text.now }
{
    if out.len() < at {
        return at;
    }
    if out.len() - at < text.len() {
        return at;
    }
    put_all(text, out, at)
}
