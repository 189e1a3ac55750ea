// The list of what salvage changes of a text, made over its tokens: a stack of 1,024 numbers, and no tables.
#![tactic(auto)]

mod walk; // walk.rt: the tree of a slice

ghost use Rattle.std.specs.Prelude.{◌≡◌, true, ◌≤◌, length};
ghost use Rattle.lexer.specs.Token.{lex_at};
ghost use Rattle.tables.specs.Numbers.{text_limit};
ghost use Rattle.parser.specs.Split.{split_by_gametree};
ghost use Rattle.salvage_list.specs.Listed.{tail_of, slices_changes};
ghost use Rattle.salvage_list.specs.ListRows.{text_changes, with_changes};
ghost use Rattle.salvage_list.specs.LocalsFound.{SlicesFound};
ghost use Rattle.salvage_list.specs.LocalsPuts.{entry_limit, EntriesPut, root_if, cut_if, TailIs};
ghost use Rattle.salvage_list.specs.LocalsWalk.{StandReady, TreeListed, ListReady};

use lexer::Step;
use parser::Survey;
use text_utf8::Trimmed;

// Behind a slice: the next place, node, property and entry.
#[derive(Clone, Copy)]
struct Behind {
    at: usize,
    nodes: usize,
    properties: usize,
    entries: usize,
}

// The entry of an empty root, where a tree has no node.
fn put_root(tree: usize, none: bool, e: usize, rows: &mut [u32]) -> usize
    requires { (e ≤ entry_limit) × (tree ≤ entry_limit) }
    ensures { EntriesPut rows.old e (root_if none tree) result rows.new }
{
    if none {
        return walk::put_entry(rows, e, 1, tree, 0);
    }
    e
}

// The entry of a tree that is cut short, where it is.
fn put_cut(tree: usize, cut: bool, place: usize, e: usize, rows: &mut [u32]) -> usize
    requires { (e ≤ entry_limit) × (tree ≤ entry_limit) × (place ≤ entry_limit) }
    ensures { EntriesPut rows.old e (cut_if cut tree place) result rows.new }
{
    if cut {
        return walk::put_entry(rows, e, 0, tree, place);
    }
    e
}

// The entries of the tree of the slice that starts at a place.
fn put_tree(
    s: &[u8],
    from: usize,
    tree: usize,
    base: usize,
    p: usize,
    e: usize,
    rows: &mut [u32],
) -> Behind
    requires { StandReady s.now from base p e × (tree ≤ text_limit) }
    ensures { TreeListed s.now from tree base p e rows.old result rows.new }
{
    let w = walk::walk_slice(s, from, base, p, e, rows);
    let rooted = put_root(tree, w.nodes == base, w.entries, rows);
    let next = put_cut(tree, w.cut, w.place, rooted, rows);
    Behind {
        at: w.next,
        nodes: (base + 1).max(w.nodes),
        properties: w.properties,
        entries: next,
    }
}

// The first token from a place on, failing or not.
fn tail_at(s: &[u8], at: usize) -> Option<usize>
    ensures { TailIs (length s.now) (tail_of (lex_at s.now at).toks (lex_at s.now at).end) result }
{
    match lexer::next_token(s, at) {
        Step::Start(i)
        | Step::End(i)
        | Step::Node(i)
        | Step::Property(i, _, _)
        | Step::Refused(_, i) => Some(i),
        Step::Done => None,
    }
}

// Its entry, if there is such a token.
fn put_tail(s: &[u8], at: usize, e: usize, rows: &mut [u32]) -> usize
    requires { (length s.now ≤ text_limit) × (e ≤ entry_limit) }
    ensures { EntriesPut rows.old e (tail_of (lex_at s.now at).toks (lex_at s.now at).end) result rows.new }
{
    match tail_at(s, at) {
        Some(i) => walk::put_entry(rows, e, 5, 0, i),
        None => e,
    }
}

// The entries of `count` slices from a place on, and of the tail.
fn put_slices(s: &[u8], from: usize, count: usize, rows: &mut [u32]) -> usize
    requires { ListReady s.now from count }
    ensures { EntriesPut rows.old 0 (slices_changes (split_by_gametree true (lex_at s.now from).toks) (lex_at s.now from))
        result rows.new }
{
    let mut at = from;
    let mut base: usize = 0;
    let mut p: usize = 0;
    let mut e: usize = 0;
    for k in 0..count {
        let x = put_tree(s, at, k, base, p, e, rows);
        at = x.at;
        base = x.nodes;
        p = x.properties;
        e = x.entries;
    }
    put_tail(s, at, e, rows)
}

// The entries of the tokens from a place on. Where there is no slice, the empty one has an empty root.
fn put_tokens(s: &[u8], from: usize, rows: &mut [u32]) -> usize
    requires { (length s.now ≤ text_limit) × (from ≤ length s.now) }
    ensures { EntriesPut rows.old 0 (slices_changes (split_by_gametree true (lex_at s.now from).toks) (lex_at s.now from))
        result rows.new }
{
    match parser::survey_lenient(s, from) {
        Survey::Refused(_, _) => 0,
        Survey::Empty => {
            let e = walk::put_entry(rows, 0, 1, 0, 0);
            put_tail(s, from, e, rows)
        }
        Survey::Slices(count) => put_slices(s, from, count, rows),
    }
}

// The entries of a text, each where there is room; how many they are.
pub fn put_all(text: &[u8], rows: &mut [u32]) -> usize
    ensures { EntriesPut rows.old 0 (text_changes text.now) result rows.new }
{
    if tables::TEXT_LIMIT < text.len() {
        return 0;
    }
    match text_utf8::trim(text) {
        Trimmed::NotUtf8(_) => 0,
        Trimmed::Blank => put_tokens(&text[..0], 0, rows),
        Trimmed::Kept(first, last) => put_tokens(&text[..last], first, rows),
    }
}

// The entries of a text whose slices are found: the place of the first token, the end of what trimming keeps, and how many they are.
pub fn put_found(text: &[u8], first: usize, last: usize, count: usize, rows: &mut [u32]) -> usize
    requires { SlicesFound text.now first last count }
    ensures { EntriesPut rows.old 0 (text_changes text.now) result rows.new }
{
    put_slices(&text[..last], first, count, rows)
}

// How many entries the list of a text has.
pub fn count_changes(text: &[u8]) -> usize
    ensures { result ≡ length (text_changes text.now) }
{
    let mut rows = [0u32; 1];
    put_all(text, &mut rows)
}

// The list of a text, three numbers an entry, into the lent rows where there is room for all of it; how many entries it has.
pub fn put_changes(text: &[u8], rows: &mut [u32]) -> usize
    ensures { (result ≡ length (text_changes text.now)) × (rows.new ≡ with_changes (text_changes text.now) rows.old) }
{
    let n = count_changes(text);
    if n <= rows.len() / 3 {
        put_all(text, rows);
    }
    n
}
