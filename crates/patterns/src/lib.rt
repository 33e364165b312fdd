// Whether codes and ties make a pattern that can be entered.
#![tactic(auto)]

ghost use Rattle.std.specs.Prelude.{◌≡◌, not};
ghost use Rattle.std.specs.List.{list_all};
ghost use Rattle.graphs.specs.Tables.{runs};
ghost use Rattle.network.specs.Ledger.{good_ends, can_enter};
ghost use Rattle.network.specs.Rules.{good_code};
ghost use Rattle.patterns.specs.Patterns.{good_tie};

use graphs::{Code, Tie};
use network::tables::{HIGHEST_CODE, LOWEST_CODE, MOST_VERTICES};

// Whether a code is one that the rules allow.
fn is_good_code(code: Code) -> bool
    ensures { result ≡ good_code code }
{
    (LOWEST_CODE..=HIGHEST_CODE).contains(&code.number)
}

// Whether a tie runs from one of that many vertices to another, with a good code.
fn is_good_tie(tie: Tie<Code>, size: usize) -> bool
    ensures { result ≡ good_tie size tie }
{
    tie.from < size && tie.to < size && tie.from != tie.to && is_good_code(tie.label)
}

// Whether none of the later ties runs between the same vertices in the same direction.
fn is_not_repeated(tie: Tie<Code>, later: &[Tie<Code>]) -> bool
    ensures { result ≡ list_all (λ u. not (runs tie.from tie.to u)) later.now }
{
    later.iter().all(|other| !other.runs(tie.from, tie.to))
}

// Whether every tie is a good one among that many vertices, and none repeats an earlier one.
fn are_good_ties(size: usize, ties: &[Tie<Code>]) -> bool
    ensures { result ≡ good_ends size ties.now }
{
    // Each tie is compared with the later ones alone, by its index: with `split_first` it takes a third longer.
    for (i, tie) in ties.iter().enumerate() {
        if !is_good_tie(*tie, size) || !is_not_repeated(*tie, &ties[i + 1..]) {
            return false;
        }
    }
    true
}

// Whether every code is one that the rules allow.
fn are_good_codes(codes: &[Code]) -> bool
    ensures { result ≡ list_all good_code codes.now }
{
    codes.iter().all(|code| is_good_code(*code))
}

// Whether the codes and ties make a pattern that can be entered: 1 to 10 vertices, good codes, and each tie in range, between two vertices, and there once.
pub fn is_good_pattern(codes: &[Code], ties: &[Tie<Code>]) -> bool
    ensures { result ≡ can_enter codes.now ties.now }
{
    let size = codes.len();
    (1..=MOST_VERTICES).contains(&size) && are_good_codes(codes) && are_good_ties(size, ties)
}
