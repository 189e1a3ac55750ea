// The properties of a node.
ghost use Rattle.std.specs.Prelude.{◌≡◌, ◌<◌, ◌/◌, length};
ghost use Rattle.store_bytes.specs.LocalsWrote.{Wrote};
ghost use Rattle.tables.specs.Columns.{node_stride};
ghost use Rattle.serialize.specs.Locals.{NodeHeld};
ghost use Rattle.serialize.specs.LocalsWalk.{kept_text, bad_at, props_text};
ghost use Rattle.tables.specs.LocalsNames.{NameHeld};

// Property p of a tree with this rule, where it is written.
fn put_property(
    out: &mut [u8],
    at: usize,
    text: &[u8],
    properties: &[u32],
    values: &[u32],
    rule: u32,
    mends: bool,
    bad: bool,
    p: usize,
) -> usize
    requires { NameHeld text.now properties.now p }
    ensures { Wrote (kept_text mends bad text.now properties.now values.now rule p)
        out.old at out.new result }
{
    let start = lists::wide(properties[p * tables::PROPERTY_STRIDE]);
    let end = lists::wide(properties[p * tables::PROPERTY_STRIDE + tables::PROPERTY_END]);
    let name = &text[start..end];
    if !crate::names::is_kept(mends, bad, name) {
        return at;
    }
    let first = lists::wide(properties[p * tables::PROPERTY_STRIDE + tables::PROPERTY_FIRST]);
    let count = lists::wide(properties[p * tables::PROPERTY_STRIDE + tables::PROPERTY_COUNT]);
    let to = crate::names::put_letters(out, at, name);
    serialize_values::put_values(out, to, rule, name, text, values, first, count)
}

// Whether node k is a root of a record that is mended, and its GMs are removed.
fn bad_at(
    mends: bool,
    text: &[u8],
    nodes: &[u32],
    properties: &[u32],
    values: &[u32],
    k: usize,
) -> bool
    requires { k < length nodes.now / node_stride }
    ensures { result ≡ bad_at mends text.now nodes.now properties.now values.now k }
{
    if !mends {
        return false;
    }
    if nodes[k * tables::NODE_STRIDE] != tables::NONE {
        return false;
    }
    let first = lists::wide(nodes[k * tables::NODE_STRIDE + tables::NODE_FIRST]);
    let count = lists::wide(nodes[k * tables::NODE_STRIDE + tables::NODE_COUNT]);
    salvage_rows::gms_bad(text, properties, values, first, count)
}

// The properties of node k.
pub fn put_properties(
    out: &mut [u8],
    at: usize,
    text: &[u8],
    nodes: &[u32],
    properties: &[u32],
    values: &[u32],
    rule: u32,
    mends: bool,
    k: usize,
) -> usize
    requires { NodeHeld text.now nodes.now properties.now k }
    ensures { Wrote (props_text mends text.now nodes.now properties.now values.now rule k)
        out.old at out.new result }
{
    let first = lists::wide(nodes[k * tables::NODE_STRIDE + tables::NODE_FIRST]);
    let count = lists::wide(nodes[k * tables::NODE_STRIDE + tables::NODE_COUNT]);
    let bad = bad_at(mends, text, nodes, properties, values, k);
    let mut to = at;
    let mut i: usize = 0;
    while i < count {
        to = put_property(
            out,
            to,
            text,
            properties,
            values,
            rule,
            mends,
            bad,
            first + i,
        );
        i += 1;
    }
    to
}
