// The exported functions of the board.
ghost use Rattle.tables.specs.Memory.{memory};
ghost use Rattle.parts_props.specs.Props.{properties_at};
ghost use Rattle.board.specs.Answer.{BoardIs, NextBoardIs};

use board::SgfBoard;
use tables::Counts;

// The board at a node, played from its root. Numbers: 19, 21, 22, 23.
#[unsafe(no_mangle)]
pub extern "C" fn sgf_board(
    text: &[u8],
    used: usize,
    counts: Counts,
    trees: &[u32],
    nodes: &[u32],
    properties: &[u32],
    values: &[u32],
    node: usize,
) -> SgfBoard
    ensures { BoardIs
        (memory text.now used counts trees.now nodes.now properties.now values.now) node result }
{
    sgf::boards::sgf_board(text, used, counts, trees, nodes, properties, values, node)
}

// The properties of `count` rows from row `first` on, played upon a board. Numbers: 23, or that of the board.
#[unsafe(no_mangle)]
pub extern "C" fn sgf_board_next(
    board: SgfBoard,
    text: &[u8],
    properties: &[u32],
    values: &[u32],
    first: usize,
    count: usize,
) -> SgfBoard
    ensures { NextBoardIs (properties_at text.now properties.now values.now first count) board result }
{
    sgf::boards::sgf_board_next(board, text, properties, values, first, count)
}
