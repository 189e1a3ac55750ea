// The shape of a property.
#![tactic(auto)]

ghost use Rattle.std.specs.Prelude.{◌≡◌, [], ◌∷◌};
ghost use Rattle.values.specs.Read.{read_identifier};
ghost use Rattle.go_shape.specs.LocalsIdentifier.{Letters};
ghost use Rattle.go_shape.specs.Shape.{shape_of};

// What a property takes, by its identifier.
#[derive(Clone, Copy)]
pub enum Shape {
    OneMove,
    OneNumber,
    ManyPoints,
    Unread,
}

// The next uppercase letter of an identifier.
fn next_letter(s: &[u8], from: usize) -> Option<(u8, usize)>
    ensures { Letters s.now from result }
{
    for at in from..s.len() {
        let b = s[at];
        if b.is_ascii_uppercase() {
            return Some((b, at + 1));
        }
    }
    None
}

// What an identifier of one letter takes.
#[tactic(auto, unfolding(crate::specs::Shape::shape_of))]
fn shape_of_one(a: u8) -> Shape
    ensures { result ≡ shape_of (a ∷ []) }
{
    match a {
        b'B' | b'W' => Shape::OneMove,
        _ => Shape::Unread,
    }
}

// What an identifier of two letters takes.
#[tactic(auto, unfolding(crate::specs::Shape::shape_of))]
fn shape_of_two(a: u8, b: u8) -> Shape
    ensures { result ≡ shape_of (a ∷ b ∷ []) }
{
    match (a, b) {
        (b'H', b'A') => Shape::OneNumber,
        (b'A', b'B' | b'W' | b'E') | (b'T', b'B' | b'W') => Shape::ManyPoints,
        _ => Shape::Unread,
    }
}

// What a property with this raw identifier takes.
pub fn shape_of(identifier: &[u8]) -> Shape
    ensures { result ≡ shape_of (read_identifier identifier.now) }
{
    let Some((a, at1)) = next_letter(identifier, 0) else {
        return Shape::Unread;
    };
    let Some((b, at2)) = next_letter(identifier, at1) else {
        return shape_of_one(a);
    };
    let Some(_) = next_letter(identifier, at2) else {
        return shape_of_two(a, b);
    };
    Shape::Unread
}
