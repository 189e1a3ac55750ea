// Answers about feeds as the structs of the C header.
#![tactic(auto)]

ghost use Rattle.std.specs.Prelude.{◌≡◌};
ghost use Rattle.c_feed.specs.Parts.{part_in_c, found_in_c, check_in_c, made_in_c, applied_in_c};

use c_answers::{SgfEdit, SgfWriting};
use feed::make::MakeFault;
use feed_check::FeedRefusal;
use feed_value::Looked;
use tables::{Counts, Refusal};

// Number 0, whether the bytes stand in the record (source 0) or in the feed (1), and their span there; or the number of a refusal and its place, all else 0.
#[repr(C)]
#[derive(Clone, Copy)]
pub struct SgfPart {
    pub number: u32,
    pub source: u32,
    pub place: usize,
    pub from: usize,
    pub to: usize,
}

// Number 0; or the number of a refusal and its place.
#[repr(C)]
#[derive(Clone, Copy)]
pub struct SgfCheck {
    pub number: u32,
    pub reserved: u32,
    pub place: usize,
}

// A value that is looked up over a record and a feed.
pub fn part_in_c(looked: Looked) -> SgfPart
    ensures { result ≡ part_in_c looked }
{
    match looked {
        Looked::Record(a, e) => SgfPart {
            number: 0,
            source: 0,
            place: 0,
            from: a,
            to: e,
        },
        Looked::Feed(a, e) => SgfPart {
            number: 0,
            source: 1,
            place: 0,
            from: a,
            to: e,
        },
        Looked::Refused(refusal, place) => SgfPart {
            number: u32::from(refusal),
            source: 0,
            place: place,
            from: 0,
            to: 0,
        },
    }
}

// A value that is looked for in a feed.
pub fn found_in_c(found: Option<(usize, usize)>) -> SgfPart
    ensures { result ≡ found_in_c found }
{
    match found {
        Some((a, e)) => SgfPart {
            number: 0,
            source: 1,
            place: 0,
            from: a,
            to: e,
        },
        None => SgfPart {
            number: 0,
            source: 0,
            place: 0,
            from: 0,
            to: 0,
        },
    }
}

// A feed that is checked.
pub fn check_in_c(checked: Result<(), Refusal<FeedRefusal>>) -> SgfCheck
    ensures { result ≡ check_in_c checked }
{
    match checked {
        Ok(()) => SgfCheck {
            number: 0,
            reserved: 0,
            place: 0,
        },
        Err(refused) => SgfCheck {
            number: u32::from(refused.reason),
            reserved: 0,
            place: refused.place,
        },
    }
}

// A part of a feed that is made.
pub fn made_in_c(made: Result<usize, MakeFault>) -> SgfWriting
    ensures { result ≡ made_in_c made }
{
    match made {
        Ok(n) => SgfWriting {
            number: 0,
            reserved: 0,
            length: n,
        },
        Err(fault) => match fault {
            MakeFault::TooLarge => SgfWriting {
                number: 24,
                reserved: 0,
                length: 0,
            },
            MakeFault::NoRoom => SgfWriting {
                number: 14,
                reserved: 0,
                length: 0,
            },
        },
    }
}

// A feed applied to a record with these counts.
pub fn applied_in_c(c: Counts, applied: Result<usize, Refusal<FeedRefusal>>) -> SgfEdit
    ensures { result ≡ applied_in_c c applied }
{
    match applied {
        Ok(n) => SgfEdit {
            number: 0,
            reserved: 0,
            place: 0,
            used: n,
            counts: c,
        },
        Err(refused) => SgfEdit {
            number: u32::from(refused.reason),
            reserved: 0,
            place: refused.place,
            used: 0,
            counts: Counts {
                trees: 0,
                nodes: 0,
                properties: 0,
                values: 0,
            },
        },
    }
}
