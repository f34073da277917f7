// The link.
ghost use Rattle.std.specs.Prelude.{◌≡◌};
ghost use Rattle.reception.specs.Link.{link as link_of};

use span::format::Format;

// Format 3 at 12 bits, the plain one: the rig sends G'.
pub fn link() -> Format
    ensures { result ≡ link_of }
{
    span::format::plain_format(3, 12)
}
