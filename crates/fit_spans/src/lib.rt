// Whether the ranges of properties and values fit, and the parts of the text that their rows name. Linear in text and tables.
#![tactic(auto)]

ghost use Rattle.std.specs.Prelude.{◌≡◌, true, ◌&&◌, [], ◌∷◌, ℕ, ◌+◌, ◌*◌, ◌/◌, ◌<◌, ◌≤◌, leb, length, get_or};
ghost use Rattle.tables.specs.Numbers.{text_limit};
ghost use Rattle.tables.specs.Columns.{node_stride, property_stride, value_stride, name_from_at, name_to_at, first_val_at, val_count_at, val_from_at, val_to_at};
ghost use Rattle.tables.specs.Each.{each, tabulate};
ghost use Rattle.fit_spans.specs.Locals.{Spanned};
ghost use Rattle.fit_spans.specs.LocalsParts.{lent_parts, parts_fit};
ghost use Rattle.fit_spans.specs.Ranges.{gapless, ranges_fit};
ghost use Rattle.fit_spans.specs.Spans.{span, val_span, prop_spans, spans, ascending, plain_name, name_right, in_brackets_closed, value_right, spans_fit};

// Whether the ranges of `n` rows follow one another from 0 to the total, and none counts less than `least`.
// A row of `stride` cells has its first at the one column, its count at the other.
fn ranges_follow(
    table: &[u32],
    stride: usize,
    first: usize,
    count: usize,
    n: usize,
    total: usize,
    least: usize,
) -> bool
    requires { (n * stride ≤ length table.now) × (first < stride) × (count < stride) }
    ensures { result ≡ (gapless (λ k. get_or table.now (k * stride + first) 0) (λ k. get_or table.now (k * stride + count) 0) n total
        && each n (λ k. leb least (get_or table.now (k * stride + count) 0))) }
{
    let mut sum: usize = 0;
    for k in 0..n {
        let begins = lists::wide(table[k * stride + first]);
        let has = lists::wide(table[k * stride + count]);
        if begins != sum {
            return false;
        }
        if total - sum < has {
            return false;
        }
        if has < least {
            return false;
        }
        sum += has;
    }
    sum == total
}

// Whether the ranges of properties and values fit.
fn ranges_fit(nodes: &[u32], properties: &[u32], counts: tables::Counts) -> bool
    requires { (counts.nodes ≤ length nodes.now / node_stride) × (counts.properties ≤ length properties.now / property_stride) }
    ensures { result ≡ ranges_fit counts nodes.now properties.now }
{
    ranges_follow(
        nodes,
        tables::NODE_STRIDE,
        tables::NODE_FIRST,
        tables::NODE_COUNT,
        counts.nodes,
        counts.properties,
        0,
    ) & ranges_follow(
        properties,
        tables::PROPERTY_STRIDE,
        tables::PROPERTY_FIRST,
        tables::PROPERTY_COUNT,
        counts.properties,
        counts.values,
        1,
    )
}

// Whether spans lie one after another, and where the next may start.
#[derive(Clone, Copy)]
struct Ascent {
    ok: bool,
    next: usize,
}

// One span, which may start at `from`, in a text of `used` bytes.
fn span_after(used: usize, from: usize, start: usize, end: usize) -> Ascent
    requires { used ≤ text_limit }
    ensures { Spanned used from (span start end ∷ []) result.ok result.next }
{
    if used < end {
        return Ascent { ok: false, next: 0 };
    }
    Ascent {
        ok: (from <= start) & (start <= end),
        next: end + 1,
    }
}

// The spans of the `m` values from `v` on, of which the first may start at `from`.
fn value_spans(values: &[u32], used: usize, from: usize, v: usize, m: usize) -> Ascent
    requires { (v + m ≤ length values.now / value_stride) × (used ≤ text_limit) }
    ensures { Spanned used from (tabulate (val_span values.now) v m) result.ok result.next }
{
    let mut next = from;
    for k in v..v + m {
        let start = lists::wide(values[k * tables::VALUE_STRIDE]);
        let end = lists::wide(values[k * tables::VALUE_STRIDE + tables::VALUE_END]);
        let step = span_after(used, next, start, end);
        if !step.ok {
            return step;
        }
        next = step.next;
    }
    Ascent {
        ok: true,
        next: next,
    }
}

// The spans of property k, of which the first may start at `from`: its identifier, then its values.
fn property_spans(properties: &[u32], k: usize, values: &[u32], used: usize, from: usize) -> Ascent
    requires { (k < length properties.now / property_stride)
        × (first_val_at properties.now k + val_count_at properties.now k ≤ length values.now / value_stride) × (used ≤ text_limit) }
    ensures { Spanned used from (prop_spans properties.now values.now k) result.ok result.next }
{
    let start = lists::wide(properties[k * tables::PROPERTY_STRIDE]);
    let end = lists::wide(properties[k * tables::PROPERTY_STRIDE + tables::PROPERTY_END]);
    let name = span_after(used, from, start, end);
    if !name.ok {
        return name;
    }
    let first = lists::wide(properties[k * tables::PROPERTY_STRIDE + tables::PROPERTY_FIRST]);
    let count = lists::wide(properties[k * tables::PROPERTY_STRIDE + tables::PROPERTY_COUNT]);
    value_spans(values, used, name.next, first, count)
}

// Whether an identifier is ASCII without `[`. Most are one byte.
fn is_plain(name: &[u8]) -> bool
    ensures { result ≡ plain_name name.now }
{
    if name.len() == 1 {
        return (name[0] < 128) & (name[0] != b'[');
    }
    match lexer_scan::ident_end(name, 0) {
        lexer_scan::Ident::Opens(_) => false,
        lexer_scan::Ident::Missing => true,
        lexer_scan::Ident::Foreign => false,
    }
}

// Whether the identifier of property k, which lies in the text, is plain.
fn name_right(text: &[u8], properties: &[u32], k: usize) -> bool
    requires { (k < length properties.now / property_stride)
        × (name_from_at properties.now k ≤ name_to_at properties.now k) × (name_to_at properties.now k ≤ length text.now) }
    ensures { result ≡ name_right text.now properties.now k }
{
    let start = lists::wide(properties[k * tables::PROPERTY_STRIDE]);
    let end = lists::wide(properties[k * tables::PROPERTY_STRIDE + tables::PROPERTY_END]);
    is_plain(&text[start..end])
}

// Whether the spans of `n` properties and their values lie one after another in the text, and the identifiers are plain.
fn spans_right(text: &[u8], properties: &[u32], n: usize, values: &[u32]) -> bool
    requires { (n ≤ length properties.now / property_stride)
        × ((p : ℕ) → p < n → first_val_at properties.now p + val_count_at properties.now p ≤ length values.now / value_stride)
        × (length text.now ≤ text_limit) }
    ensures { result ≡ (ascending (length text.now) 0 (spans properties.now values.now 0 n)
        && each n (name_right text.now properties.now)) }
{
    let mut next: usize = 0;
    for k in 0..n {
        let ascent = property_spans(properties, k, values, text.len(), next);
        if !ascent.ok {
            return false;
        }
        if !name_right(text, properties, k) {
            return false;
        }
        next = ascent.next;
    }
    true
}

// Whether a value, which lies in the text, stands after `[` and before `]` and is closed: the scan from its start ends at its end.
fn is_boxed(text: &[u8], start: usize, end: usize) -> bool
    requires { (start ≤ end) × (end ≤ length text.now) }
    ensures { result ≡ in_brackets_closed text.now start end }
{
    if start == 0 {
        return false;
    }
    if text[start - 1] != b'[' {
        return false;
    }
    // Most are two bytes.
    if (end - start == 2) && lexer_close::is_pair(text, start) {
        return true;
    }
    match lexer_close::value_end(text, start) {
        Some(place) => place == end,
        None => false,
    }
}

// Whether `n` values, which lie in the text, are right.
fn values_right(text: &[u8], values: &[u32], n: usize) -> bool
    requires { (n ≤ length values.now / value_stride)
        × ((v : ℕ) → v < n → (val_from_at values.now v ≤ val_to_at values.now v) × (val_to_at values.now v ≤ length text.now)) }
    ensures { result ≡ each n (value_right text.now values.now) }
{
    for k in 0..n {
        let start = lists::wide(values[k * tables::VALUE_STRIDE]);
        let end = lists::wide(values[k * tables::VALUE_STRIDE + tables::VALUE_END]);
        if !is_boxed(text, start, end) {
            return false;
        }
    }
    true
}

// Whether the spans, and what stands in them, fit.
fn spans_fit(text: &[u8], properties: &[u32], values: &[u32], counts: tables::Counts) -> bool
    requires { (counts.properties ≤ length properties.now / property_stride)
        × (counts.values ≤ length values.now / value_stride) × (length text.now ≤ text_limit)
        × (gapless (first_val_at properties.now) (val_count_at properties.now) counts.properties counts.values ≡ true) }
    ensures { result ≡ spans_fit text.now counts properties.now values.now }
{
    if !spans_right(text, properties, counts.properties, values) {
        return false;
    }
    values_right(text, values, counts.values)
}

// Whether so many nodes, properties and values are lent, and the text is within the limit.
fn is_lent(
    text: &[u8],
    nodes: &[u32],
    properties: &[u32],
    values: &[u32],
    counts: tables::Counts,
) -> bool
    ensures { result ≡ lent_parts text.now counts nodes.now properties.now values.now }
{
    (text.len() <= tables::TEXT_LIMIT)
        & (counts.nodes <= nodes.len() / tables::NODE_STRIDE)
        & (counts.properties <= properties.len() / tables::PROPERTY_STRIDE)
        & (counts.values <= values.len() / tables::VALUE_STRIDE)
}

// Whether so much is lent, and ranges and spans fit.
pub fn parts_fit(
    text: &[u8],
    nodes: &[u32],
    properties: &[u32],
    values: &[u32],
    counts: tables::Counts,
) -> bool
    ensures { result ≡ parts_fit text.now counts nodes.now properties.now values.now }
{
    if !is_lent(text, nodes, properties, values, counts) {
        return false;
    }
    if !ranges_fit(nodes, properties, counts) {
        return false;
    }
    spans_fit(text, properties, values, counts)
}
