// Which interface this is.
ghost use Rattle.std.specs.Prelude.{◌≡◌};
ghost use Rattle.face.specs.Calls.{version·answer};

// The number of the interface times 65536, and the number of the release in it. It refuses nothing.
#[unsafe(no_mangle)]
pub extern "C" fn brazulint4_version() -> u32
    ensures { result ≡ version·answer }
{
    262144
}
