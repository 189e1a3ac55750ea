// What is read of a text before any tree is: which slices, or why it is refused.
#![tactic(auto)]

ghost use Rattle.std.specs.Prelude.{◌≡◌, true, false};
ghost use Rattle.lexer.specs.Token.{lex_at};
ghost use Rattle.parser.specs.LocalsSurvey.{survey_of};
ghost use Rattle.parser_split.specs.LocalsPlans.{plan_tokens, plan_text};

use parser::Survey;
use tables::{Reason, Refusal};
use text_utf8::Trimmed;

// The first pass over the tokens, strict or lenient.
fn survey(s: &[u8], from: usize, lenient: bool) -> Survey
    ensures { result ≡ survey_of lenient (lex_at s.now from) }
{
    if lenient {
        return parser::survey_lenient(s, from);
    }
    parser::survey_strict(s, from)
}

// The slices of the tokens from a place on. Where there is none, the empty one is that of the empty text.
fn plan_tokens(
    s: &[u8],
    from: usize,
    lenient: bool,
) -> Result<(usize, usize, usize), Refusal<Reason>>
    ensures { result ≡ plan_tokens lenient s.now from }
{
    match survey(s, from, lenient) {
        Survey::Refused(reason, place) => Err(Refusal { reason, place }),
        Survey::Slices(count) => Ok((from, s.len(), count)),
        Survey::Empty => Ok((0, 0, 1)),
    }
}

// The slices of a text: the limit, UTF-8, trimming, the first pass over the tokens.
pub fn plan_text(text: &[u8], lenient: bool) -> Result<(usize, usize, usize), Refusal<Reason>>
    ensures { result ≡ plan_text lenient text.now }
{
    if tables::TEXT_LIMIT < text.len() {
        return Err(Refusal {
            reason: Reason::TextTooLong,
            place: 0,
        });
    }
    match text_utf8::trim(text) {
        Trimmed::NotUtf8(place) => Err(Refusal {
            reason: Reason::NotUtf8,
            place,
        }),
        Trimmed::Blank => plan_tokens(&text[..0], 0, lenient),
        Trimmed::Kept(first, last) => plan_tokens(&text[..last], first, lenient),
    }
}

// The slices of a text that is read strictly.
pub fn plan_strict(text: &[u8]) -> Result<(usize, usize, usize), Refusal<Reason>>
    ensures { result ≡ plan_text false text.now }
{
    plan_text(text, false)
}

// The slices of a text that is read leniently.
pub fn plan_lenient(text: &[u8]) -> Result<(usize, usize, usize), Refusal<Reason>>
    ensures { result ≡ plan_text true text.now }
{
    plan_text(text, true)
}
