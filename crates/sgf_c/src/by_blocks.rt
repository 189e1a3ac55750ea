// Tokens from blocks: a block, and the close.
ghost use Rattle.blocks.specs.Block.{BlockIs};
ghost use Rattle.blocks.specs.Close.{CloseIs};

use blocks::{Blocked, BlocksState, Closed};

// A block of the text, of any length; 20 after close.
#[unsafe(no_mangle)]
pub extern "C" fn sgf_block(state: BlocksState, block: &[u8], rows: &mut [u32]) -> Blocked
    ensures { BlockIs state block.now rows.old result rows.new }
{
    sgf::by_blocks::sgf_block(state, block, rows)
}

// The end of the text: the number of tokens, or the number and place of the refusal; 20 after close.
#[unsafe(no_mangle)]
pub extern "C" fn sgf_close(state: BlocksState, rows: &mut [u32]) -> Closed
    ensures { CloseIs state rows.old result rows.new }
{
    sgf::by_blocks::sgf_close(state, rows)
}
