// The four lent tables: their rows, the counts and numbers given back, and the links and depths of the nodes.
#![tactic(auto)]

ghost use Rattle.std.specs.Prelude.{◌≡◌};
ghost use Rattle.tables.specs.LocalsDepths.{LevelsIs};
ghost use Rattle.tables.specs.LocalsLinks.{LinksIs};
ghost use Rattle.tables.specs.Numbers.{number_of, reason_of};

// The longest text, in bytes.
pub const TEXT_LIMIT: usize = 1048576;

// The greatest number of open trees.
pub const DEPTH_LIMIT: usize = 1024;

// "None" in a row.
pub const NONE: u32 = 4294967295;

// Numbers in a row of each table.
pub const TREE_STRIDE: usize = 2;

pub const NODE_STRIDE: usize = 6;

pub const PROPERTY_STRIDE: usize = 4;

pub const VALUE_STRIDE: usize = 2;

// Columns of a row behind its first: of a tree, a node, a property, a value.
pub const TREE_GAME: usize = 1;

pub const NODE_CHILD: usize = 1;

pub const NODE_SIBLING: usize = 2;

pub const NODE_FIRST: usize = 3;

pub const NODE_COUNT: usize = 4;

pub const NODE_DEPTH: usize = 5;

pub const PROPERTY_END: usize = 1;

pub const PROPERTY_FIRST: usize = 2;

pub const PROPERTY_COUNT: usize = 3;

pub const VALUE_END: usize = 1;

// Used rows of each table; also as a C caller lends them.
#[repr(C)]
#[derive(Clone, Copy)]
pub struct Counts {
    pub trees: usize,
    pub nodes: usize,
    pub properties: usize,
    pub values: usize,
}

// Why something is refused.
#[derive(Clone, Copy)]
pub enum Reason {
    TextTooLong,
    NotUtf8,
    MissingPropertyIdentifier,
    UnexpectedEndOfPropertyIdentifier,
    UnexpectedEndOfPropertyValue,
    UnexpectedGameTreeEnd,
    UnexpectedEndOfData,
    NoGameTrees,
    TooDeep,
    UnexpectedGameTreeStart,
    UnexpectedProperty,
    InvalidGameType,
    NoRoom,
    EmptyIdentifier,
    NoSuchNumber,
    GameTypeFixed,
    NotClosed,
    NotFitting,
}

// What is refused, and the place in the text that it speaks of, 0 where it speaks of none.
#[derive(Clone, Copy)]
pub struct Refusal<R> {
    pub reason: R,
    pub place: usize,
}

// Why a lenient reading is refused: the one that has a place with it.
#[derive(Clone, Copy)]
pub enum LenientRefusal {
    TextTooLong,
    NotUtf8(usize),
    TooDeep,
    NoRoom,
}

impl From<Reason> for u32 {
    ghost from_gives = { λ reason to. to ≡ number_of reason };

    // The number of a refusal.
    fn from(reason: Reason) -> u32 {
        match reason {
            Reason::TextTooLong => 1,
            Reason::NotUtf8 => 2,
            Reason::MissingPropertyIdentifier => 3,
            Reason::UnexpectedEndOfPropertyIdentifier => 4,
            Reason::UnexpectedEndOfPropertyValue => 5,
            Reason::UnexpectedGameTreeEnd => 6,
            Reason::UnexpectedEndOfData => 7,
            Reason::NoGameTrees => 8,
            Reason::TooDeep => 9,
            Reason::UnexpectedGameTreeStart => 10,
            Reason::UnexpectedProperty => 11,
            Reason::InvalidGameType => 12,
            Reason::NoRoom => 14,
            Reason::EmptyIdentifier => 15,
            Reason::NoSuchNumber => 16,
            Reason::GameTypeFixed => 17,
            Reason::NotClosed => 18,
            Reason::NotFitting => 19,
        }
    }
}

impl From<lexer::Fault> for Reason {
    ghost from_gives = { λ fault to. to ≡ reason_of fault };

    // A token's fault as a reason.
    fn from(fault: lexer::Fault) -> Reason {
        match fault {
            lexer::Fault::MissingPropertyIdentifier => Reason::MissingPropertyIdentifier,
            lexer::Fault::UnexpectedEndOfPropertyIdentifier =>
                Reason::UnexpectedEndOfPropertyIdentifier,
            lexer::Fault::UnexpectedEndOfPropertyValue => Reason::UnexpectedEndOfPropertyValue,
        }
    }
}

// The first child and the next sibling of each of n nodes, from the parents, by one pass from the back. The rows have no first child yet.
pub fn link_nodes(t: &mut [u32], n: usize)
    ensures { LinksIs n t.old t.new }
{
    if t.len() / NODE_STRIDE < n {
        return;
    }
    if (NONE as usize) < n {
        return;
    }
    for k in (0..n).rev() {
        let at = k * NODE_STRIDE;
        let parent = t[at] as usize;
        if parent < n {
            let child = parent * NODE_STRIDE + NODE_CHILD;
            t[at + NODE_SIBLING] = t[child];
            t[child] = k as u32;
        } else {
            t[at + NODE_SIBLING] = NONE;
        }
    }
}

// The depth of each of n nodes, from the parents, by one pass forward: 0 at a root, else the parent's plus 1. `last` is that of the node before, as a rule the parent: it need not be read again.
pub fn level_nodes(t: &mut [u32], n: usize)
    ensures { LevelsIs n t.old t.new }
{
    if t.len() / NODE_STRIDE < n {
        return;
    }
    if (NONE as usize) < n {
        return;
    }
    let mut last: u32 = 0;
    for row in 0..n {
        let at = row * NODE_STRIDE;
        let parent = t[at] as usize;
        last = if parent + 1 == row {
            last + 1
        } else if parent < row {
            t[parent * NODE_STRIDE + NODE_DEPTH] + 1
        } else {
            0
        };
        t[at + NODE_DEPTH] = last;
    }
}
