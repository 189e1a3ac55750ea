// FF[4]'s property index: what a property's values are, its type and its section, by its identifier.
#![tactic(auto)]

ghost use Rattle.std.specs.Prelude.{◌≡◌, ◌<◌};
ghost use Rattle.values.specs.Read.{read_identifier};
ghost use Rattle.ff4_index.specs.Listed.{entry_of};
ghost use Rattle.ff4_index.specs.Places.{index_place, letters_at};
ghost use Rattle.ff4_index.specs.Locals.{cell_entry};

// What FF[4] lists of a property, by number; 0, 0, 0 where it does not list it.
#[derive(Clone, Copy)]
pub struct Entry {
    pub kind: u32,
    pub property_type: u32,
    pub section: u32,
}

// How many identifiers have one or two letters.
pub const PLACES: usize = 702;

// A cell for each of them: its kind, 32 times its type and 256 times its section, or 0.
const INDEX: [u16; 702] = [
    0, 296, 775, 0, 0, 0, 0, 0, 0, 0, 0, 0, 0, 774, 0, 0, 0, 0, 0, 0, 0, 771, 296, 0, 0, 0, 0, 585,
    0, 0, 586, 0, 0, 0, 0, 0, 0, 0, 0, 1926, 0, 1646, 0, 1292, 0, 0, 0, 0, 585, 0, 0, 0, 0, 0, 0,
    0, 0, 0, 0, 0, 0, 0, 0, 2083, 1060, 0, 0, 0, 0, 1926, 0, 1926, 0, 0, 0, 0, 0, 0, 1638, 0, 0, 0,
    0, 0, 0, 0, 0, 0, 0, 0, 0, 0, 0, 1926, 0, 1290, 0, 0, 0, 0, 0, 0, 0, 0, 0, 0, 0, 1451, 0, 0, 0,
    0, 0, 0, 0, 0, 772, 0, 1057, 0, 0, 0, 0, 1926, 0, 0, 0, 0, 0, 0, 0, 0, 0, 0, 0, 0, 0, 0, 0, 0,
    0, 0, 0, 0, 0, 0, 0, 0, 0, 0, 0, 1926, 0, 0, 0, 0, 0, 0, 0, 0, 0, 1634, 2320, 0, 0, 0, 0, 0, 0,
    0, 0, 0, 0, 0, 0, 0, 0, 0, 0, 0, 0, 0, 0, 772, 1927, 0, 0, 0, 0, 0, 0, 0, 0, 0, 1634, 1926, 0,
    0, 0, 0, 0, 0, 0, 0, 772, 0, 0, 0, 2690, 0, 0, 0, 0, 0, 0, 0, 0, 0, 0, 0, 0, 0, 772, 0, 0, 0,
    0, 0, 0, 0, 0, 0, 0, 0, 0, 0, 0, 0, 0, 0, 0, 0, 0, 0, 0, 0, 0, 0, 0, 0, 0, 0, 0, 1057, 0, 0, 0,
    0, 0, 0, 0, 0, 0, 0, 0, 0, 0, 0, 0, 0, 0, 0, 0, 0, 0, 0, 0, 0, 0, 0, 0, 0, 0, 0, 0, 0, 0, 0, 0,
    0, 0, 0, 0, 0, 0, 0, 0, 0, 2691, 0, 289, 0, 0, 0, 0, 0, 0, 0, 0, 0, 0, 0, 0, 1293, 0, 0, 0, 0,
    0, 0, 0, 0, 0, 0, 0, 1292, 0, 0, 0, 0, 0, 0, 0, 0, 0, 0, 0, 0, 1290, 0, 0, 0, 0, 0, 0, 0, 0, 0,
    0, 0, 0, 290, 0, 0, 0, 0, 0, 0, 0, 0, 0, 0, 0, 0, 0, 0, 0, 0, 0, 0, 0, 0, 0, 0, 0, 0, 0, 0, 0,
    0, 0, 0, 0, 0, 0, 0, 0, 0, 0, 0, 0, 2082, 0, 0, 0, 0, 0, 0, 0, 0, 0, 0, 0, 1927, 0, 0, 0, 0, 0,
    1926, 0, 0, 2082, 0, 0, 0, 0, 1926, 1926, 0, 0, 0, 0, 0, 0, 0, 0, 581, 2466, 0, 0, 0, 0, 0, 0,
    0, 0, 0, 1926, 0, 0, 0, 0, 0, 0, 0, 0, 0, 0, 0, 0, 0, 0, 0, 0, 0, 0, 0, 0, 0, 0, 0, 0, 0, 0, 0,
    0, 0, 0, 0, 0, 0, 1926, 0, 0, 0, 0, 0, 0, 0, 0, 0, 1926, 0, 0, 0, 0, 0, 1926, 0, 0, 0, 0, 0, 0,
    0, 0, 0, 0, 0, 0, 0, 0, 0, 0, 1290, 0, 0, 1926, 0, 1290, 0, 0, 1634, 0, 0, 0, 0, 0, 1647, 0,
    2571, 0, 0, 1060, 0, 0, 0, 0, 0, 0, 0, 1923, 0, 0, 0, 0, 1290, 0, 0, 0, 0, 2571, 0, 0, 0, 0, 0,
    772, 0, 0, 0, 0, 0, 0, 0, 0, 0, 0, 0, 0, 0, 0, 0, 1926, 0, 0, 0, 0, 0, 0, 0, 0, 0, 0, 0, 0, 0,
    0, 0, 0, 0, 0, 0, 0, 0, 0, 0, 0, 0, 0, 0, 0, 0, 2475, 0, 0, 0, 0, 0, 0, 0, 0, 0, 0, 0, 0, 0, 0,
    2083, 0, 0, 0, 0, 0, 1926, 0, 1926, 0, 0, 0, 0, 0, 0, 0, 0, 0, 0, 0, 0, 0, 0, 0, 0, 0, 0, 0, 0,
    0, 0, 0, 0, 0, 0, 0, 0, 0, 0, 0, 0, 0, 0, 0, 0, 0, 0, 0, 0, 0, 0, 0, 0, 0, 0, 0, 0, 0, 0, 0, 0,
    0, 0, 0, 0, 0, 0, 0, 0, 0, 0, 0, 0, 0, 0, 0, 0, 0, 0, 0, 0, 0, 0, 0, 0, 0, 0, 0, 0, 0, 0, 0, 0,
];

// The place of an identifier in the table; 702 where it has none. Letters count as those of a sheet's columns do, from 1 for `A`.
fn place_of(identifier: &[u8]) -> usize
    ensures { result ≡ index_place (read_identifier identifier.now) }
{
    let mut number: usize = 0;
    for &b in identifier {
        if !b.is_ascii_uppercase() {
            continue;
        }
        if 26 < number {
            return PLACES;
        }
        number = number * 26 + (b - 64) as usize;
    }
    if number == 0 {
        return PLACES;
    }
    number - 1
}

// What the table has at a place.
fn entry_at(place: usize) -> Entry
    requires { place < 702 }
    ensures { result ≡ entry_of (letters_at place) }
{
    decode(INDEX[place])
}

// The parts of a cell.
fn decode(cell: u16) -> Entry
    ensures { result ≡ cell_entry cell }
{
    Entry {
        kind: (cell % 32) as u32,
        property_type: (cell / 32 % 8) as u32,
        section: (cell / 256) as u32,
    }
}

// What FF[4] lists of the property with this raw identifier.
pub fn entry_of(identifier: &[u8]) -> Entry
    ensures { result ≡ entry_of (read_identifier identifier.now) }
{
    let place = place_of(identifier);
    if PLACES <= place {
        return Entry {
            kind: 0,
            property_type: 0,
            section: 0,
        };
    }
    entry_at(place)
}
