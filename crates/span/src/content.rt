// The content bytes of a span (004, 7.1.1; document 01, "Sending").
ghost use Rattle.std.specs.Prelude.{◌≡◌};
ghost use Rattle.span.specs.Content.{content_of};

use crate::format::Format;

// Content bytes 1 and 2 after the SAV's special characters, and after the EAV's.
#[repr(C)]
#[derive(Clone, Copy, Debug, PartialEq, Eq)]
pub struct ContentBytes {
    pub sav1: u8,
    pub sav2: u8,
    pub eav1: u8,
    pub eav2: u8,
}

// The bytes that are sent: those that the caller names, if any.
pub fn content_of(f: Format, content: Option<ContentBytes>) -> ContentBytes
    ensures { result ≡ content_of f content }
{
    content.unwrap_or(ContentBytes {
        sav1: 0,
        sav2: 0,
        eav1: 0,
        eav2: 0,
    })
}
