// How many rows a reading needs, and why a text is refused: no tables are lent.
ghost use Rattle.std.specs.Prelude.{◌≡◌, true, false};
ghost use Rattle.parser.specs.Read.{read_strict, read_lenient};
ghost use Rattle.reader.specs.Lent.{rows_counted};
ghost use Rattle.c_answers.specs.Structs.{reading_in_c};
ghost use Rattle.why.specs.Why.{explained};
ghost use Rattle.c_why.specs.WhyInC.{why_in_c};

use c_answers::SgfReading;
use c_why::SgfWhy;

// How many rows a strict reading of a text needs, or why it is refused and the place.
#[unsafe(no_mangle)]
pub extern "C" fn sgf_count_strict(text: &[u8]) -> SgfReading
    ensures { result ≡ reading_in_c 0 (rows_counted (read_strict text.now)) }
{
    sgf::explain::sgf_count_strict(text)
}

// How many rows a lenient reading of a text needs, or why it is refused and the place.
#[unsafe(no_mangle)]
pub extern "C" fn sgf_count_lenient(text: &[u8]) -> SgfReading
    ensures { result ≡ reading_in_c 0 (rows_counted (read_lenient text.now)) }
{
    sgf::explain::sgf_count_lenient(text)
}

// Why a text is refused where it is read strictly: the number, the fact, the place of the token to blame; or the counts and the place of the first token in no slice.
#[unsafe(no_mangle)]
pub extern "C" fn sgf_why_strict(text: &[u8]) -> SgfWhy
    ensures { result ≡ why_in_c (explained false text.now) }
{
    sgf::explain::sgf_why_strict(text)
}

// The same where it is read leniently.
#[unsafe(no_mangle)]
pub extern "C" fn sgf_why_lenient(text: &[u8]) -> SgfWhy
    ensures { result ≡ why_in_c (explained true text.now) }
{
    sgf::explain::sgf_why_lenient(text)
}
