// How long a recording may be (document 01, "Receiving and finding").
ghost use Rattle.std.specs.Prelude.{◌≡◌};
ghost use Rattle.recording.specs.Recording.{limit as limitOf};

// The most symbols that a recording may have.
pub fn limit() -> usize
    ensures { result ≡ limitOf }
{
    2097152
}
