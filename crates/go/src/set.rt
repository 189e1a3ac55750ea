// The points that the values of a property stand for.
ghost use Rattle.std.specs.Prelude.{◌≡◌, false, ◌+◌, ◌*◌, ◌≤◌, ◌<◌, length};
ghost use Rattle.values.specs.Read.{read_value};
ghost use Rattle.go_points.specs.Area.{area_of};
ghost use Rattle.parts.specs.Rows.{values_at};
ghost use Rattle.go.specs.Marks.{Adds, in_rect, good, in_area};
ghost use Rattle.go.specs.Value.{points_of};

use crate::value::GoValue;
use go_points::{Area, Value};

// Marks the points (x, from) to (x, to).
fn mark_row(marks: &mut [bool; 2704], x: usize, from: usize, to: usize)
    requires { (x < 52) × (from ≤ to) × (to < 52) × (length marks.old ≡ 2704) }
    ensures { Adds (in_rect x (x + 1) from (to + 1)) marks.old marks.new }
{
    marks[52 * x + from..52 * x + to + 1].fill(true);
}

// Marks the points from (x, y) to (x2, y2), the first nowhere greater.
fn mark_rect(marks: &mut [bool; 2704], x: u8, y: u8, x2: u8, y2: u8)
    requires { (x ≤ x2) × (x2 < 52) × (y ≤ y2) × (y2 < 52) × (length marks.old ≡ 2704) }
    ensures { Adds (in_rect x (x2 + 1) y (y2 + 1)) marks.old marks.new }
{
    for at in x as usize..x2 as usize + 1 {
        mark_row(marks, at, y as usize, y2 as usize);
    }
}

// Marks what one value stands for; nothing where it stands for nothing.
pub fn mark_value(marks: &mut [bool; 2704], value: &[u8]) -> bool
    requires { length marks.old ≡ 2704 }
    ensures { (result ≡ good (area_of (read_value value.now)))
        × Adds (in_area (area_of (read_value value.now))) marks.old marks.new }
{
    match go_points::read_area(value) {
        Area::Bad => false,
        Area::Rect { x, y, x2, y2 } => {
            mark_rect(marks, x, y, x2, y2);
            true
        }
    }
}

// The points of `count` values from row `first` on; no mark where one of them stands for none.
pub fn read_points(text: &[u8], vals: &[u32], first: usize, count: usize) -> GoValue
    ensures { result ≡ points_of (values_at text.now vals.now first count) }
{
    let mut marks = [false; 2704];
    for n in 0..count {
        let value = parts::value_at(text, vals, first, n);
        if !mark_value(&mut marks, value) {
            let none = [false; 2704];
            return GoValue {
                value: Value::Invalid,
                marks: none,
            };
        }
    }
    GoValue {
        value: Value::Points,
        marks,
    }
}
