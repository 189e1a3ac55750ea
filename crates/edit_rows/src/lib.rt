// Places in the rows of properties and values moved by one number, a stretch of rows at a time.
#![tactic(auto)]

ghost use Rattle.std.specs.Prelude.{◌≡◌, ◌+◌, ◌-◌, ◌/◌, ◌<◌, ◌%◌, ◌^◌, min, length};
ghost use Rattle.tables.specs.Columns.{property_stride};
ghost use Rattle.edit_rows.specs.LocalsShift.{row_moved, names_before, names_shifted, values_shifted};

// How many of `m` rows from row k on there are, of so many.
fn lent(rows: usize, k: usize, m: usize) -> usize
    ensures { result ≡ min m (rows - k) }
{
    m.min(rows.saturating_sub(k))
}

// What is to be added to a place that moves by so much up and so much down.
pub fn change(up: usize, down: usize) -> u32
    ensures { (result + down) % 2 ^ 32 ≡ up % 2 ^ 32 }
{
    ((up % 4294967296) as u32).wrapping_sub((down % 4294967296) as u32)
}

// The two places at the start of a row, moved.
fn move_row(rows: &mut [u32], at: usize, by: u32)
    requires { at + 1 < length rows.old }
    ensures { rows.new ≡ row_moved by at rows.old }
{
    rows[at] = rows[at].wrapping_add(by);
    rows[at + 1] = rows[at + 1].wrapping_add(by);
}

// The identifiers of the properties from row k on, `m` at most, that come before the first whose values stand behind value v: both places moved. How many they are.
pub fn shift_names(properties: &mut [u32], k: usize, m: usize, v: usize, by: u32) -> usize
    ensures { (result ≡ names_before properties.old v k (min m (length properties.old / property_stride - k)))
        × (properties.new ≡ names_shifted by k result properties.old) }
{
    let left = lent(properties.len() / tables::PROPERTY_STRIDE, k, m);
    for i in 0..left {
        let at = (k + i) * tables::PROPERTY_STRIDE;
        if v < lists::wide(properties[at + tables::PROPERTY_FIRST]) {
            return i;
        }
        move_row(properties, at, by);
    }
    left
}

// The identifiers of the properties from row k on, `m` at most, whatever values they have: both places moved. How many they are.
pub fn shift_all_names(properties: &mut [u32], k: usize, m: usize, by: u32) -> usize
    ensures { (result ≡ min m (length properties.old / property_stride - k))
        × (properties.new ≡ names_shifted by k result properties.old) }
{
    let left = lent(properties.len() / tables::PROPERTY_STRIDE, k, m);
    for i in 0..left {
        move_row(properties, (k + i) * tables::PROPERTY_STRIDE, by);
    }
    left
}

// The spans of the values from row k on, `m` at most: both places moved.
pub fn shift_values(values: &mut [u32], k: usize, m: usize, by: u32)
    ensures { values.new ≡ values_shifted by k m values.old }
{
    let left = lent(values.len() / tables::VALUE_STRIDE, k, m);
    for i in 0..left {
        move_row(values, (k + i) * tables::VALUE_STRIDE, by);
    }
}
