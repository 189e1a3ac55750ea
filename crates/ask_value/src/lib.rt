// The value accessor: value k of a text whose tables fit.
#![tactic(auto)]

ghost use Rattle.std.specs.Prelude.{◌≡◌, ◌/◌, ◌<◌, length, Ok};
ghost use Rattle.tables.specs.Columns.{value_stride, val_from_at, val_to_at};
ghost use Rattle.tables.specs.Memory.{memory};
ghost use Rattle.ask_value.specs.Access.{accessed, raw_value};

use tables::Reason;

// The part of value k.
fn part_of(values: &[u32], k: usize) -> Result<(usize, usize), Reason>
    requires { k < length values.now / value_stride }
    ensures { result ≡ Ok (val_from_at values.now k, val_to_at values.now k) }
{
    let start = lists::wide(values[k * tables::VALUE_STRIDE]);
    let end = lists::wide(values[k * tables::VALUE_STRIDE + tables::VALUE_END]);
    Ok((start, end))
}

// Where value k stands, or why it is refused.
pub fn access(
    text: &[u8],
    used: usize,
    counts: tables::Counts,
    trees: &[u32],
    nodes: &[u32],
    properties: &[u32],
    values: &[u32],
    k: usize,
) -> Result<(usize, usize), Reason>
    ensures { result ≡ accessed
        (memory text.now used counts trees.now nodes.now properties.now values.now) k }
{
    if !fit::fits(text, used, counts, trees, nodes, properties, values) {
        return Err(tables::Reason::NotFitting);
    }
    if counts.values <= k {
        return Err(tables::Reason::NoSuchNumber);
    }
    part_of(values, k)
}

// The raw bytes of value k, a part of the text; the empty part where access is refused.
pub fn value<'a>(
    text: &'a [u8],
    used: usize,
    counts: tables::Counts,
    trees: &[u32],
    nodes: &[u32],
    properties: &[u32],
    values: &[u32],
    k: usize,
) -> &'a [u8]
    ensures { result.now ≡ raw_value
        (memory text.now used counts trees.now nodes.now properties.now values.now) k }
{
    match access(text, used, counts, trees, nodes, properties, values, k) {
        Ok((start, end)) => &text[start..end],
        Err(_) => &text[..0],
    }
}
