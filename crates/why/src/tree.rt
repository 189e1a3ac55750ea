// The tree of a slice, walked for the token to blame: the stack of `parser_tree`, and no tables.
ghost use Rattle.std.specs.Prelude.{◌≡◌, ◌≤◌};
ghost use Rattle.parser_step.specs.LocalsActs.{stack_of};
ghost use Rattle.why.specs.Trees.{top_node};
ghost use Rattle.why.specs.LocalsTrees.{SliceReady, FoundIn};

use lexer::Step;
use tables::{NONE, Refusal};
use why_blame::Fact;

// The node on top of the stack.
fn top(stack: &[u32; 1024], depth: usize) -> u32
    requires { depth ≤ 1024 }
    ensures { result ≡ top_node (stack_of stack.now depth) }
{
    if depth == 0 {
        return NONE;
    }
    stack[depth - 1]
}

// The slice that starts at a place, its first node numbered `base`.
pub fn walk_slice(s: &[u8], from: usize, base: usize) -> Result<(usize, usize), Refusal<Fact>>
    requires { SliceReady s.now from base }
    ensures { FoundIn s.now from base result }
{
    let mut stack = [0u32; 1024];
    let mut at = from;
    let mut depth: usize = 0;
    let mut cur = NONE;
    let mut n = base;
    let mut follows = false;
    // A loop: `at` moves by the token that it finds.
    loop {
        match lexer::next_token(s, at) {
            Step::Start(i) => {
                if !parser_step::may_open(&stack, depth, base, n) {
                    return Err(Refusal {
                        reason: Fact::EmptyList(top(&stack, depth)),
                        place: i,
                    });
                }
                stack[depth] = cur;
                depth += 1;
                follows = false;
                at = i + 1;
            }
            Step::End(i) => {
                if depth == 0 {
                    return Err(Refusal {
                        reason: Fact::EndBeyond,
                        place: i,
                    });
                }
                if depth == 1 {
                    return Ok((i + 1, n));
                }
                depth -= 1;
                cur = stack[depth];
                follows = false;
                at = i + 1;
            }
            Step::Node(i) => {
                cur = n as u32;
                n += 1;
                follows = true;
                at = i + 1;
            }
            Step::Property(i, _, e) => {
                if !follows {
                    return Err(Refusal {
                        reason: Fact::Stray,
                        place: i,
                    });
                }
                at = e;
            }
            Step::Refused(_, _) => return Ok((at, n)),
            Step::Done => return Ok((at, n)),
        }
    }
}
