// The places in property and value rows, moved once by what the corrections before them change in length.
ghost use Rattle.std.specs.Prelude.{◌≡◌, ◌+◌, ◌-◌, ◌/◌, ◌<◌, ◌≤◌, min, length};
ghost use Rattle.tables.specs.Numbers.{text_limit};
ghost use Rattle.tables.specs.Columns.{property_stride, value_stride, val_from_at, val_to_at};
ghost use Rattle.tables.specs.Each.{tabulate};
ghost use Rattle.tables.specs.Flat.{flat_props, flat_vals, over};
ghost use Rattle.edit_rows.specs.LocalsShift.{names_before, names_shifted};
ghost use Rattle.feed_apply.specs.LocalsAlong.{Uncorrected};
ghost use Rattle.feed_apply.specs.LocalsSizes.{old_size, grown_to, shrunk_to, moved_val, moved_prop, FirstsTo, Spread, NamesStand, Tallied};

use crate::along;
use crate::along::Along;

// How many bytes value k has.
pub fn size_of(values: &[u32], k: usize) -> usize
    requires { (k < length values.now / value_stride) × (val_from_at values.now k ≤ val_to_at values.now k) }
    ensures { result ≡ old_size values.now k }
{
    let at = k * tables::VALUE_STRIDE;
    lists::wide(values[at + tables::VALUE_END]) - lists::wide(values[at])
}

// Where value k starts.
pub fn start_of(values: &[u32], k: usize) -> usize
    requires { k < length values.now / value_stride }
    ensures { result ≡ val_from_at values.now k }
{
    lists::wide(values[k * tables::VALUE_STRIDE])
}

// The walk taken on until it stands at value `first` or behind it.
pub fn reach(values: &[u32], n: usize, feed: &[u8], s: Along, first: usize) -> Along
    requires { (n ≤ length values.now / value_stride) × Spread values.now n text_limit × (first ≤ n)
        × Tallied values.now feed.now n s × Uncorrected feed.now first s.due }
    ensures { (first ≤ result.due) × Tallied values.now feed.now n result × Uncorrected feed.now first result.due }
{
    let mut t = s;
    // A while: the feed says which value comes next.
    while t.due < first {
        let old = size_of(values, t.due);
        t = along::pass(feed, n, t, old);
    }
    t
}

// What all values grow and shrink by.
pub fn measure(values: &[u32], n: usize, feed: &[u8]) -> Along
    requires { (n ≤ length values.now / value_stride) × Spread values.now n text_limit }
    ensures { (result.grown ≡ grown_to values.now feed.now n) × (result.shrunk ≡ shrunk_to values.now feed.now n) }
{
    reach(values, n, feed, along::begin(feed, n), n)
}

// A place moved.
fn moved(place: u32, grown: usize, shrunk: usize) -> u32
    requires { (place ≤ text_limit) × (grown ≤ text_limit) × (shrunk ≤ place) }
    ensures { result ≡ place + grown - shrunk }
{
    (place as usize + grown - shrunk) as u32
}

// The identifiers from row k on, `m` at most, that come before the first whose values stand behind value v, moved. Behind the last value n there is none.
fn shift_to(properties: &mut [u32], k: usize, m: usize, v: usize, n: usize, by: u32) -> usize
    requires { FirstsTo properties.old n k m }
    ensures { (result ≡ names_before properties.old v k (min m (length properties.old / property_stride - k)))
        × (properties.new ≡ names_shifted by k result properties.old) }
{
    if v == n {
        return edit_rows::shift_all_names(properties, k, m, by);
    }
    edit_rows::shift_names(properties, k, m, v, by)
}

// The identifiers of `p` properties, where their values still stand as they were.
pub fn move_properties(properties: &mut [u32], p: usize, values: &[u32], n: usize, feed: &[u8])
    requires { (p ≤ length properties.old / property_stride) × (n ≤ length values.now / value_stride) × Spread values.now n text_limit
        × NamesStand properties.old values.now p n text_limit × (grown_to values.now feed.now n ≤ text_limit) }
    ensures { properties.new ≡
        over (flat_props (tabulate (moved_prop properties.old values.now feed.now) 0 p)) properties.old }
{
    let mut s = along::begin(feed, n);
    let mut k: usize = 0;
    // A while: k moves by the identifiers that a stretch holds.
    while k < p {
        let first = properties[k * tables::PROPERTY_STRIDE + tables::PROPERTY_FIRST];
        s = reach(values, n, feed, s, lists::wide(first));
        let by = edit_rows::change(s.grown, s.shrunk);
        k += shift_to(properties, k, p - k, s.due, n, by);
    }
}

// The spans of `n` values.
pub fn move_values(values: &mut [u32], n: usize, feed: &[u8])
    requires { (n ≤ length values.old / value_stride) × Spread values.old n text_limit × (grown_to values.old feed.now n ≤ text_limit) }
    ensures { values.new ≡ over (flat_vals (tabulate (moved_val values.old feed.now) 0 n)) values.old }
{
    let mut s = along::begin(feed, n);
    let mut k: usize = 0;
    // A while: the feed says which value comes next.
    while s.due < n {
        let v = s.due;
        let at = v * tables::VALUE_STRIDE;
        let old = size_of(values, v);
        let from = moved(values[at], s.grown, s.shrunk);
        let by = edit_rows::change(s.grown, s.shrunk);
        edit_rows::shift_values(values, k, v - k, by);
        s = along::pass(feed, n, s, old);
        let to = moved(values[at + tables::VALUE_END], s.grown, s.shrunk);
        store_numbers::put(values, at, [from, to]);
        k = v + 1;
    }
    let by = edit_rows::change(s.grown, s.shrunk);
    edit_rows::shift_values(values, k, n - k, by);
}
