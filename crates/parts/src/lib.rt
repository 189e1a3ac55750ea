// Raw values by their rows: two numbers a value, its start and its end in the text.
#![tactic(auto)]

ghost use Rattle.std.specs.Prelude.{◌≡◌, ◌+◌};
ghost use Rattle.parts.specs.Rows.{value_at};

// The raw value i rows behind `first`, as a part of the text; nothing where there is no such row.
pub fn value_at<'a, 'b>(text: &'a [u8], vals: &'b [u32], first: usize, i: usize) -> &'a [u8]
    ensures { result.now ≡ value_at text.now vals.now (first + i) }
{
    let rows = vals.len() / 2;
    let left = rows.saturating_sub(first);
    if left <= i {
        return &text[..0];
    }
    let cell = (first + i) * 2;
    let end = lists::wide(vals[cell + 1]).min(text.len());
    let start = lists::wide(vals[cell]).min(end);
    &text[start..end]
}
