// The token rules of SGF: bytes to tokens with spans. The text is the part that trimming keeps, from the start of the buffer to its last place; places count from the start of the buffer.
#![tactic(auto)]

ghost use Rattle.std.specs.Prelude.{◌≡◌, ◌<◌, ◌^◌};
ghost use Rattle.lexer_scan.specs.Scan.{values_end_at};
ghost use Rattle.lexer.specs.Token.{fault_number};
ghost use Rattle.lexer.specs.Step.{head_from, head_at, on_values, next_at, behind, SteppedIs};

// What is wrong with a token.
#[derive(Clone, Copy)]
pub enum Fault {
    MissingPropertyIdentifier,
    UnexpectedEndOfPropertyIdentifier,
    UnexpectedEndOfPropertyValue,
}

impl From<Fault> for u32 {
    ghost from_gives = { λ fault to. to ≡ fault_number fault };

    // The number of a fault.
    fn from(fault: Fault) -> u32 {
        match fault {
            Fault::MissingPropertyIdentifier => 3,
            Fault::UnexpectedEndOfPropertyIdentifier => 4,
            Fault::UnexpectedEndOfPropertyValue => 5,
        }
    }
}

// How a token begins: as in `Step`, but of a property only its start and its first `[`. Its values follow by `next_value`, each scanned once.
#[derive(Clone, Copy)]
pub enum Head {
    Start(usize),
    End(usize),
    Node(usize),
    Name(usize, usize),
    Refused(Fault, usize),
    Done,
}

// How the token at a place begins that is no white space.
fn head_from(s: &[u8], at: usize) -> Head
    ensures { result ≡ head_from s.now at }
{
    if s.len() <= at {
        return Head::Done;
    }
    let b = s[at];
    if b == b'(' {
        return Head::Start(at);
    }
    if b == b')' {
        return Head::End(at);
    }
    if b == b';' {
        return Head::Node(at);
    }
    match lexer_scan::ident_end(s, at) {
        lexer_scan::Ident::Opens(k) => Head::Name(at, k),
        lexer_scan::Ident::Missing => Head::Refused(Fault::MissingPropertyIdentifier, at),
        lexer_scan::Ident::Foreign => Head::Refused(Fault::UnexpectedEndOfPropertyIdentifier, at),
    }
}

// How the next token from a place on begins.
pub fn next_head(s: &[u8], from: usize) -> Head
    ensures { result ≡ head_at s.now from }
{
    let at = lexer_scan::skip_space(s, from);
    head_from(s, at)
}

// The next token with its start (a property also with its first `[` and its end); or what is wrong with it and its start; or the end of the text.
#[derive(Clone, Copy)]
pub enum Step {
    Start(usize),
    End(usize),
    Node(usize),
    Property(usize, usize, usize),
    Refused(Fault, usize),
    Done,
}

// A property whose first `[` stands at `opens`, with all its values.
fn property(s: &[u8], from: usize, opens: usize) -> Step
    ensures { result ≡ on_values from opens (values_end_at s.now opens) }
{
    match lexer_scan::values_end(s, opens) {
        Some(e) => Step::Property(from, opens, e),
        None => Step::Refused(Fault::UnexpectedEndOfPropertyValue, from),
    }
}

// The next token from a place on.
pub fn next_token(s: &[u8], from: usize) -> Step
    ensures { result ≡ next_at s.now from }
{
    match next_head(s, from) {
        Head::Start(i) => Step::Start(i),
        Head::End(i) => Step::End(i),
        Head::Node(i) => Step::Node(i),
        Head::Name(i, k) => property(s, i, k),
        Head::Refused(f, i) => Step::Refused(f, i),
        Head::Done => Step::Done,
    }
}

// A place from which tokens are taken.
#[derive(Clone, Copy)]
pub struct Cursor {
    pub at: usize,
}

// What stands next, and the cursor behind it. A refusal, and the end of the text, leave the cursor where it is.
#[derive(Clone, Copy)]
pub struct Stepped {
    pub token: Step,
    pub next: Cursor,
}

impl Cursor {
    // The next token, and the cursor behind it.
    pub fn next(self, s: &[u8]) -> Stepped
        ensures { SteppedIs s.now self.at result.token result.next.at }
    {
        let at = self.at;
        let token = next_token(s, at);
        let next = place_behind(token, at);
        Stepped {
            token: token,
            next: Cursor { at: next },
        }
    }
}

// The place behind a token that was looked for from `at` on.
fn place_behind(token: Step, at: usize) -> usize
    requires { behind at token < 2 ^ 64 }
    ensures { result ≡ behind at token }
{
    match token {
        Step::Start(i) => i + 1,
        Step::End(i) => i + 1,
        Step::Node(i) => i + 1,
        Step::Property(_, _, e) => e,
        Step::Refused(_, _) => at,
        Step::Done => at,
    }
}
