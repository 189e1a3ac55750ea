// The board size of a tree and its rule, as the struct of the C header.
#![tactic(auto)]

ghost use Rattle.std.specs.Prelude.{◌≡◌};
ghost use Rattle.tables.specs.Memory.{memory};
ghost use Rattle.tables.specs.Numbers.{number_of};
ghost use Rattle.fit_rule.specs.Rule.{size_at, rule_at};
ghost use Rattle.c_size.specs.SizeInC.{size_in_c, no_size_in_c, tree_size_in_c};
ghost use Rattle.c_size.specs.Locals.{SmallSides};

use go_size::RootSize;
use tables::{Counts, Reason};

// A number; the kind of size; columns and rows; the rule of the tree.
#[repr(C)]
#[derive(Clone, Copy)]
pub struct SgfSize {
    pub number: u32,
    pub kind: u32,
    pub columns: u32,
    pub rows: u32,
    pub rule: u32,
}

// A size and a rule.
fn in_c(size: RootSize, rule: u32) -> SgfSize
    requires { SmallSides size }
    ensures { result ≡ size_in_c size rule }
{
    match size {
        RootSize::Absent => SgfSize {
            number: 0,
            kind: 0,
            columns: 19,
            rows: 19,
            rule: rule,
        },
        RootSize::Sized(x, y) => SgfSize {
            number: 0,
            kind: 1,
            columns: x as u32,
            rows: y as u32,
            rule: rule,
        },
        RootSize::Wrong => SgfSize {
            number: 0,
            kind: 2,
            columns: 0,
            rows: 0,
            rule: rule,
        },
    }
}

// A refusal: its number, and 0.
fn refused(reason: Reason) -> SgfSize
    ensures { result ≡ no_size_in_c (number_of reason) }
{
    SgfSize {
        number: u32::from(reason),
        kind: 0,
        columns: 0,
        rows: 0,
        rule: 0,
    }
}

// The size and the rule of tree r, by its rows.
pub fn size_by_rows(
    text: &[u8],
    trees: &[u32],
    nodes: &[u32],
    properties: &[u32],
    values: &[u32],
    r: usize,
) -> SgfSize
    ensures { result ≡ size_in_c
        (size_at text.now trees.now nodes.now properties.now values.now r)
        (rule_at text.now trees.now nodes.now properties.now values.now r) }
{
    let size = fit_rule::size_at(text, trees, nodes, properties, values, r);
    let rule = fit_rule::rule_of(fit_rule::game_at(trees, r), size);
    in_c(size, rule)
}

// The size and the rule of tree r, or why they are not given: 19, 16.
pub fn tree_size(
    text: &[u8],
    used: usize,
    counts: Counts,
    trees: &[u32],
    nodes: &[u32],
    properties: &[u32],
    values: &[u32],
    r: usize,
) -> SgfSize
    ensures { result ≡ tree_size_in_c
        (memory text.now used counts trees.now nodes.now properties.now values.now) r }
{
    if !fit::fits(text, used, counts, trees, nodes, properties, values) {
        return refused(Reason::NotFitting);
    }
    if counts.trees <= r {
        return refused(Reason::NoSuchNumber);
    }
    size_by_rows(&text[..used], trees, nodes, properties, values, r)
}
