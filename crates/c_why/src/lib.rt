// Explanations as the struct of the C header.
#![tactic(auto)]

ghost use Rattle.std.specs.Prelude.{◌≡◌};
ghost use Rattle.c_why.specs.WhyInC.{shown_fact, why_in_c};

use tables::{Counts, Refusal};
use why_blame::Fact;

// The number of a refusal, the fact's own number, and the number in it.
#[derive(Clone, Copy)]
pub struct Shown {
    pub number: u32,
    pub fact: u32,
    pub detail: usize,
}

// Number 0, the place of the first token in no slice and the counts; or the number of a refusal, its fact, the place of the token to blame and the number in the fact, the counts 0.
#[repr(C)]
#[derive(Clone, Copy)]
pub struct SgfWhy {
    pub number: u32,
    pub fact: u32,
    pub place: usize,
    pub detail: usize,
    pub counts: Counts,
}

// The three numbers.
fn numbers(number: u32, fact: u32, detail: usize) -> Shown
    ensures { result ≡ record { number = number; fact = fact; detail = detail } }
{
    Shown {
        number,
        fact,
        detail,
    }
}

// A fact as numbers.
pub fn fact_in_c(fact: Fact) -> Shown
    ensures { result ≡ shown_fact fact }
{
    match fact {
        Fact::Length(n) => numbers(1, 1, n),
        Fact::BadSequence => numbers(2, 2, 0),
        Fact::NoBracket(n) => numbers(3, 3, n),
        Fact::Foreign(n) => numbers(4, 4, n),
        Fact::NotClosed(n) => numbers(5, 5, n),
        Fact::EndBeyond => numbers(6, 6, 0),
        Fact::StaysOpen(n) => numbers(7, 7, n),
        Fact::NoNode(n) => numbers(7, 8, n),
        Fact::NoEnd => numbers(8, 9, 0),
        Fact::TooDeep => numbers(9, 10, 0),
        Fact::EmptyList(n) => numbers(10, 11, lists::wide(n)),
        Fact::SecondGm(n) => numbers(11, 12, n),
        Fact::Stray => numbers(11, 13, 0),
        Fact::GmValues(n) => numbers(12, 14, n),
        Fact::GmNumber => numbers(12, 15, 0),
    }
}

// An explanation.
pub fn why_in_c(why: Result<(Counts, usize), Refusal<Fact>>) -> SgfWhy
    ensures { result ≡ why_in_c why }
{
    match why {
        Ok((counts, place)) => SgfWhy {
            number: 0,
            fact: 0,
            place,
            detail: 0,
            counts,
        },
        Err(refused) => {
            let x = fact_in_c(refused.reason);
            SgfWhy {
                number: x.number,
                fact: x.fact,
                place: refused.place,
                detail: x.detail,
                counts: Counts {
                    trees: 0,
                    nodes: 0,
                    properties: 0,
                    values: 0,
                },
            }
        }
    }
}
