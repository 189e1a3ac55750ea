// Plain text as a raw value for an edit, exported.
ghost use Rattle.sgf.specs.EscapeInC.{EscapeInC};

use c_answers::SgfDisplay;

// Plain text escaped in the output: a backslash before each backslash and each `]`.
#[unsafe(no_mangle)]
pub extern "C" fn sgf_escape(text: &[u8], out: &mut [u8]) -> SgfDisplay
    ensures { EscapeInC text.now out.old out.new result }
{
    sgf::escape::sgf_escape(text, out)
}
