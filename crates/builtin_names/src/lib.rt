//! The names of keysyms that are built in, as data: those of the X11 headers `keysymdef.h`, with
//! their characters, and `XF86keysym.h` (`XF86XK_Launch1` is `XF86Launch1`), and the short names in
//! `share/composecheck/short-unicode-names.h`. `make names` generates them from these headers.
//!
//! ```text
//! let names = Names::read(alloc, builtin_names().as_bytes())?;
//! ```
#![tactic(auto)]

ghost use Rattle.std.specs.Prelude.{◌≡◌};

mod lines;

use lines::LINES;

/// Returns the text of a header with these names. Each line is `#define XK_NAME 0xVALUE`, followed
/// by ` /*U+00E9*/` if the name has a character; the last line ends with a newline. O(1).
pub fn builtin_names() -> &'static str
    ensures { result.now ≡ LINES.now }
{
    LINES
}
