// The writer: a record in memory as text, points in one fixed order; as it is, or mended.
#![tactic(auto)]

mod brackets; // brackets.rt: the starts and ends of nodes
mod names; // names.rt: identifiers
mod property; // property.rt: the properties of a node
mod walk; // walk.rt: node by node along the links

ghost use Rattle.std.specs.Prelude.{◌≡◌, true};
ghost use Rattle.store_bytes.specs.LocalsWrote.{Wrote};
ghost use Rattle.fit.specs.Fit.{Fit};
ghost use Rattle.fit.specs.Record.{record_in};
ghost use Rattle.salvage_mend.specs.Mend.{mended};
ghost use Rattle.serialize.specs.Form.{writing, written_length, WriteIs};
ghost use Rattle.tables.specs.Memory.{memory};

use tables::Reason;

// The writing into `out`, measured before its first byte is written.
pub fn write(
    text: &[u8],
    used: usize,
    counts: tables::Counts,
    trees: &[u32],
    nodes: &[u32],
    properties: &[u32],
    values: &[u32],
    out: &mut [u8],
) -> Result<usize, Reason>
    ensures { WriteIs
        (memory text.now used counts trees.now nodes.now properties.now values.now)
        out.old out.new result }
{
    if !fit::fits(text, used, counts, trees, nodes, properties, values) {
        return Err(Reason::NotFitting);
    }
    let used_text = &text[..used];
    if !names::names_good(used_text, properties, counts.properties) {
        return Err(Reason::EmptyIdentifier);
    }
    let n = counts.nodes;
    let corners = walk::any_corner(used_text, values, counts.values);
    let need = walk::put_all(
        &mut out[..0],
        used_text,
        trees,
        nodes,
        n,
        properties,
        values,
        corners,
        false,
    );
    if out.len() < need {
        return Err(Reason::NoRoom);
    }
    let length = walk::put_all(
        out, used_text, trees, nodes, n, properties, values, corners, false,
    );
    Ok(length)
}

// The length of the writing without an output: what `write` answers where there is room for anything.
pub fn write_length(
    text: &[u8],
    used: usize,
    counts: tables::Counts,
    trees: &[u32],
    nodes: &[u32],
    properties: &[u32],
    values: &[u32],
) -> Result<usize, Reason>
    ensures { result ≡ written_length
        (memory text.now used counts trees.now nodes.now properties.now values.now) }
{
    if !fit::fits(text, used, counts, trees, nodes, properties, values) {
        return Err(Reason::NotFitting);
    }
    let used_text = &text[..used];
    if !names::names_good(used_text, properties, counts.properties) {
        return Err(Reason::EmptyIdentifier);
    }
    let corners = walk::any_corner(used_text, values, counts.values);
    let mut none = [0u8; 1];
    let need = walk::put_all(
        &mut none[..0],
        used_text,
        trees,
        nodes,
        counts.nodes,
        properties,
        values,
        corners,
        false,
    );
    if need == 0xffff_ffff_ffff_ffff {
        return Err(Reason::NoRoom);
    }
    Ok(need)
}

// The writing of the mended record into `out`, as far as it has room, of tables that fit.
pub fn put_mended(
    text: &[u8],
    used: usize,
    counts: tables::Counts,
    trees: &[u32],
    nodes: &[u32],
    properties: &[u32],
    values: &[u32],
    out: &mut [u8],
) -> usize
    requires { Fit (memory text.now used counts trees.now nodes.now properties.now values.now) ≡ true }
    ensures { Wrote
        (writing (mended (record_in
        (memory text.now used counts trees.now nodes.now properties.now values.now))))
        out.old 0 out.new result }
{
    let used_text = &text[..used];
    let corners = walk::any_corner(used_text, values, counts.values);
    walk::put_all(
        out,
        used_text,
        trees,
        nodes,
        counts.nodes,
        properties,
        values,
        corners,
        true,
    )
}
