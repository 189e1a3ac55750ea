// What is asked of a record in memory by number: how a value is displayed, and the Go value of a property.
#![tactic(auto)]

ghost use Rattle.std.specs.Prelude.{◌≡◌, ◌-◌, ◌<◌};
ghost use Rattle.parts.specs.Rows.{values_at};
ghost use Rattle.go.specs.Value.{go_value};
ghost use Rattle.values.specs.Read.{read_identifier};
ghost use Rattle.ask.specs.Ask.{display_raw, display_raw_in, DisplayIs, refuses, go_answer};
ghost use Rattle.ask.specs.Locals.{Rooted, tree_from, name_at};
ghost use Rattle.tables.specs.Columns.{first_val_at, val_count_at};
ghost use Rattle.tables.specs.Memory.{memory};
ghost use Rattle.tables.specs.LocalsNames.{NameHeld};

use go::value::GoValue;
use go_points::Value;
use tables::{Counts, Reason};
use value_display::Kind;

// What a raw value shows, put into the output.
fn display_raw(kind: Kind, raw: &[u8], out: &mut [u8]) -> Result<usize, Reason>
    ensures value { result ≡ display_raw kind raw.now out.old }
    ensures out_after { out.new ≡ display_raw_in kind raw.now out.old }
{
    match value_display::display(kind, raw, out) {
        Some(n) => Ok(n),
        None => Err(Reason::NoRoom),
    }
}

// Displays value k in the output, or says why not and changes nothing: 19, 16, 14.
pub fn display(
    text: &[u8],
    used: usize,
    counts: Counts,
    trees: &[u32],
    nodes: &[u32],
    properties: &[u32],
    values: &[u32],
    k: usize,
    kind: Kind,
    out: &mut [u8],
) -> Result<usize, Reason>
    ensures { DisplayIs
        (memory text.now used counts trees.now nodes.now properties.now values.now)
        k kind out.old out.new result }
{
    match ask_value::access(text, used, counts, trees, nodes, properties, values, k) {
        Ok((start, end)) => display_raw(kind, &text[start..end], out),
        Err(reason) => Err(reason),
    }
}

// A Go value, and why it is refused, if it is: then it is "other" with no points.
#[derive(Drop)]
pub struct GoAnswer {
    pub refusal: Option<Reason>,
    pub go: GoValue,
}

// A refused Go value: "other", no point marked.
fn refused(reason: Reason) -> GoAnswer
    ensures { result ≡ refuses reason }
{
    let none = [false; 2704];
    GoAnswer {
        refusal: Some(reason),
        go: GoValue {
            value: Value::Other,
            marks: none,
        },
    }
}

// The number of the tree that has property p: the last whose root's first property is not behind it.
fn property_tree(trees: &[u32], m: usize, nodes: &[u32], p: usize) -> usize
    requires { Rooted m trees.now nodes.now }
    ensures { result ≡ tree_from trees.now nodes.now p 0 (m - 1) }
{
    let mut r: usize = 0;
    while r + 1 < m {
        let root = lists::wide(trees[(r + 1) * tables::TREE_STRIDE]);
        if p < lists::wide(nodes[root * tables::NODE_STRIDE + tables::NODE_FIRST]) {
            return r;
        }
        r += 1;
    }
    r
}

// The Go value of property p in a tree with this rule.
fn value_of(rule: u32, text: &[u8], properties: &[u32], values: &[u32], p: usize) -> GoValue
    requires { NameHeld text.now properties.now p }
    ensures { result ≡ go_value rule (read_identifier (name_at text.now properties.now p))
        (values_at text.now values.now (first_val_at properties.now p) (val_count_at properties.now p)) }
{
    let start = lists::wide(properties[p * tables::PROPERTY_STRIDE]);
    let end = lists::wide(properties[p * tables::PROPERTY_STRIDE + tables::PROPERTY_END]);
    let first = lists::wide(properties[p * tables::PROPERTY_STRIDE + tables::PROPERTY_FIRST]);
    let count = lists::wide(properties[p * tables::PROPERTY_STRIDE + tables::PROPERTY_COUNT]);
    go::value::go_value(rule, &text[start..end], text, values, first, count)
}

// The Go value of property p, or why it is not given: 19, 16.
pub fn go_value(
    text: &[u8],
    used: usize,
    counts: Counts,
    trees: &[u32],
    nodes: &[u32],
    properties: &[u32],
    values: &[u32],
    p: usize,
) -> GoAnswer
    ensures { result ≡ go_answer
        (memory text.now used counts trees.now nodes.now properties.now values.now) p }
{
    if !fit::fits(text, used, counts, trees, nodes, properties, values) {
        return refused(Reason::NotFitting);
    }
    if counts.properties <= p {
        return refused(Reason::NoSuchNumber);
    }
    let tree = property_tree(trees, counts.trees, nodes, p);
    let used_text = &text[..used];
    let rule = fit_rule::rule_at(used_text, trees, nodes, properties, values, tree);
    let go = value_of(rule, used_text, properties, values, p);
    GoAnswer {
        refusal: None,
        go: go,
    }
}
