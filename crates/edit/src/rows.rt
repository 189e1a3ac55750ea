// The places in property and value rows, moved as a value's change in length moves them.
ghost use Rattle.std.specs.Prelude.{◌≡◌, ◌/◌, ◌<◌, ◌≤◌, length};
ghost use Rattle.tables.specs.Numbers.{text_limit};
ghost use Rattle.tables.specs.Columns.{property_stride, value_stride, val_from_at, val_to_at};
ghost use Rattle.tables.specs.Flat.{over};
ghost use Rattle.edit.specs.Locals.{NamesApart, ValuesApart, properties_moved, values_moved};

// Where a value stands.
#[derive(Clone, Copy)]
pub struct Span {
    pub start: usize,
    pub end: usize,
}

// The span of value k.
pub fn span_of(values: &[u32], k: usize) -> Span
    requires { k < length values.now / value_stride }
    ensures { (result.start ≡ val_from_at values.now k) × (result.end ≡ val_to_at values.now k) }
{
    let at = k * tables::VALUE_STRIDE;
    Span {
        start: lists::wide(values[at]),
        end: lists::wide(values[at + tables::VALUE_END]),
    }
}

// The identifiers of `n` properties, where value k stands at start..end and becomes `m` bytes long: those of properties behind it move.
pub fn move_properties(
    properties: &mut [u32],
    n: usize,
    k: usize,
    start: usize,
    end: usize,
    m: usize,
)
    requires { (n ≤ length properties.old / property_stride) × NamesApart properties.old n k start end text_limit
        × (start ≤ end) × (end ≤ text_limit) × (m ≤ text_limit) }
    ensures { properties.new ≡ over (properties_moved start end m n properties.old) properties.old }
{
    let kept = edit_rows::shift_names(properties, 0, n, k, 0);
    let by = edit_rows::change(start + m, end);
    edit_rows::shift_all_names(properties, kept, n - kept, by);
}

// The spans of `n` values: the end of value k, and all behind it.
pub fn move_values(values: &mut [u32], n: usize, k: usize, start: usize, end: usize, m: usize)
    requires { (n ≤ length values.old / value_stride) × (k < n) × ValuesApart values.old n k start end text_limit
        × (start ≤ end) × (end ≤ text_limit) × (m ≤ text_limit) }
    ensures { values.new ≡ over (values_moved start end m n values.old) values.old }
{
    let by = edit_rows::change(start + m, end);
    store_numbers::put(
        values,
        k * tables::VALUE_STRIDE,
        [start as u32, (start + m) as u32],
    );
    edit_rows::shift_values(values, k + 1, n - (k + 1), by);
}
