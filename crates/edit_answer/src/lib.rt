// What a value edit answers, before any byte is changed: 19, 16, 17, 2, 18, 1, 14.
#![tactic(auto)]

ghost use Rattle.std.specs.Prelude.{◌≡◌, ◌-◌, ◌/◌, ◌<◌, ◌≤◌, length};
ghost use Rattle.lists.specs.Same.{same};
ghost use Rattle.lexer.specs.Closed.{closed};
ghost use Rattle.tables.specs.Numbers.{none, text_limit};
ghost use Rattle.parser.specs.Game.{GM};
ghost use Rattle.tables.specs.Columns.{property_stride, value_stride, val_from_at, val_to_at};
ghost use Rattle.tables.specs.Each.{tabulate};
ghost use Rattle.tables.specs.Memory.{memory};
ghost use Rattle.fit.specs.Record.{prop_row};
ghost use Rattle.edit_answer.specs.Answer.{outcome_of, edited_for};
ghost use Rattle.edit_answer.specs.Edit.{owner_name};
ghost use Rattle.edit_answer.specs.Locals.{NamesLie, AnswersBytes};

use tables::{Counts, Reason, Refusal};

// Whether a value is closed.
pub fn is_closed(value: &[u8]) -> bool
    ensures { result ≡ closed value.now }
{
    let mut escaped = false;
    let mut i: usize = 0;
    while i < value.len() {
        let b = value[i];
        if !escaped & (b == b']') {
            return false;
        }
        escaped = !escaped & (b == b'\\');
        i += 1;
    }
    !escaped
}

// Whether a raw identifier is exactly `GM`.
pub fn is_gm(name: &[u8]) -> bool
    ensures { result ≡ same name.now GM }
{
    if name.len() != 2 {
        return false;
    }
    (name[0] == b'G') & (name[1] == b'M')
}

// A cell as a number whose sum with another cannot wrap.
fn wide(cell: u32) -> usize
    ensures { (result ≡ cell) × (result ≤ none) }
{
    cell as usize
}

// Whether value k belongs to a property, of `n`, whose raw identifier is `GM`.
fn is_fixed(text: &[u8], properties: &[u32], n: usize, k: usize) -> bool
    requires { (n ≤ length properties.now / property_stride) × NamesLie properties.now n (length text.now) }
    ensures { result ≡ same (owner_name text.now (tabulate (prop_row properties.now) 0 n) k) GM }
{
    let mut p: usize = 0;
    while p < n {
        let at = p * tables::PROPERTY_STRIDE;
        let first = wide(properties[at + tables::PROPERTY_FIRST]);
        let count = wide(properties[at + tables::PROPERTY_COUNT]);
        if k < first + count {
            let start = wide(properties[at]);
            let end = wide(properties[at + tables::PROPERTY_END]);
            return is_gm(&text[start..end]);
        }
        p += 1;
    }
    false
}

// How many bytes value k has.
fn size_of(values: &[u32], k: usize) -> usize
    requires { (k < length values.now / value_stride) × (val_from_at values.now k ≤ val_to_at values.now k) }
    ensures { result ≡ val_to_at values.now k - val_from_at values.now k }
{
    let at = k * tables::VALUE_STRIDE;
    lists::wide(values[at + tables::VALUE_END]) - lists::wide(values[at])
}

// Whether the new bytes may stand where `kept` bytes of the text stay and `room` are lent.
fn answer_bytes(new: &[u8], kept: usize, room: usize) -> Result<usize, Refusal<Reason>>
    requires { kept ≤ text_limit }
    ensures { AnswersBytes new.now kept room result }
{
    if let text_utf8::Trimmed::NotUtf8(place) = text_utf8::trim(new) {
        return Err(Refusal {
            reason: Reason::NotUtf8,
            place,
        });
    }
    if !is_closed(new) {
        return Err(Refusal {
            reason: Reason::NotClosed,
            place: 0,
        });
    }
    let length = kept + new.len();
    if tables::TEXT_LIMIT < length {
        return Err(Refusal {
            reason: Reason::TextTooLong,
            place: 0,
        });
    }
    if room < length {
        return Err(Refusal {
            reason: Reason::NoRoom,
            place: 0,
        });
    }
    Ok(length)
}

// What an edit answers.
pub fn answer(
    text: &[u8],
    used: usize,
    counts: Counts,
    trees: &[u32],
    nodes: &[u32],
    properties: &[u32],
    values: &[u32],
    k: usize,
    new: &[u8],
) -> Result<usize, Refusal<Reason>>
    ensures { result ≡ edited_for (outcome_of
        (memory text.now used counts trees.now nodes.now properties.now values.now)
        k new.now) }
{
    if !fit::fits(text, used, counts, trees, nodes, properties, values) {
        return Err(Refusal {
            reason: Reason::NotFitting,
            place: 0,
        });
    }
    if counts.values <= k {
        return Err(Refusal {
            reason: Reason::NoSuchNumber,
            place: 0,
        });
    }
    if is_fixed(&text[..used], properties, counts.properties, k) {
        return Err(Refusal {
            reason: Reason::GameTypeFixed,
            place: 0,
        });
    }
    answer_bytes(new, used - size_of(values, k), text.len())
}
