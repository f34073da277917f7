// Copying one row into another.
ghost use Rattle.std.specs.Prelude.{◌≡◌, ◌+◌, ◌≤◌, length};
ghost use Rattle.std.proofs.lemmas.List.Edits.{sets};

// Copies each sample, from a place of the other on.
#[tactic(auto, using(crate::proofs::Stores::stores))]
pub(crate) fn copy_to(from: &[u16], to: &mut [u16], at: usize)
    requires { at + length from.now ≤ length to.old }
    ensures { to.new ≡ sets to.old at from.now }
{
    let end = at + from.len();
    to[at..end].copy_from_slice(from);
}
