// Whether tables fit a text. Linear in text and tables.
#![tactic(auto)]

ghost use Rattle.std.specs.Prelude.{◌≡◌};
ghost use Rattle.fit.specs.Fit.{lent_for, valid_utf8, fit_text, Fit};
ghost use Rattle.fit.specs.Locals.{RowsLent};
ghost use Rattle.tables.specs.Memory.{memory};

// Whether a text is valid UTF-8.
fn is_utf8(text: &[u8]) -> bool
    ensures { result ≡ valid_utf8 text.now }
{
    match text_utf8::trim(text) {
        text_utf8::Trimmed::NotUtf8(_) => false,
        text_utf8::Trimmed::Blank => true,
        text_utf8::Trimmed::Kept(_, _) => true,
    }
}

// Whether the tables, of which enough is lent, fit a text that is used whole.
fn fits_text(
    text: &[u8],
    counts: tables::Counts,
    trees: &[u32],
    nodes: &[u32],
    properties: &[u32],
    values: &[u32],
) -> bool
    requires { RowsLent counts trees.now nodes.now properties.now values.now }
    ensures { result ≡ fit_text text.now counts trees.now nodes.now properties.now values.now }
{
    if tables::TEXT_LIMIT < text.len() {
        return false;
    }
    if !is_utf8(text) {
        return false;
    }
    if !fit_nodes::links_fit(trees, nodes, counts) {
        return false;
    }
    fit_spans::parts_fit(text, nodes, properties, values, counts)
}

// Whether used length and counts are within what is lent.
fn is_lent(
    text: &[u8],
    used: usize,
    counts: tables::Counts,
    trees: &[u32],
    nodes: &[u32],
    properties: &[u32],
    values: &[u32],
) -> bool
    ensures { result ≡ lent_for
        (memory text.now used counts trees.now nodes.now properties.now values.now) }
{
    (used <= text.len())
        & (counts.trees <= trees.len() / tables::TREE_STRIDE)
        & (counts.nodes <= nodes.len() / tables::NODE_STRIDE)
        & (counts.nodes <= tables::NONE as usize)
        & (counts.properties <= properties.len() / tables::PROPERTY_STRIDE)
        & (counts.values <= values.len() / tables::VALUE_STRIDE)
}

// Whether the tables fit the first `used` bytes of the text: the scope's rule.
pub fn fits(
    text: &[u8],
    used: usize,
    counts: tables::Counts,
    trees: &[u32],
    nodes: &[u32],
    properties: &[u32],
    values: &[u32],
) -> bool
    ensures { result ≡ Fit
        (memory text.now used counts trees.now nodes.now properties.now values.now) }
{
    if !is_lent(text, used, counts, trees, nodes, properties, values) {
        return false;
    }
    fits_text(&text[..used], counts, trees, nodes, properties, values)
}
