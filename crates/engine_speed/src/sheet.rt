// Sheets of any size at constant degree: persons, accounts, sites and logins in equal number, and each person tied to one account, one site and one login, and one in four to another person of the same household.

use engine_cases::random::Random;
use engine_cases::samples::{Sample, pay};
use graphs::{Pay, Tie};
use std::alloc::{AllocError, Global};

pub const PERSON: u32 = 10;

pub const ACCOUNT: u32 = 20;

pub const SITE: u32 = 30;

pub const LOGIN: u32 = 40;

pub const PAID_INTO: u32 = 50;

pub const WORKS_AT: u32 = 60;

pub const USES: u32 = 70;

pub const HOUSEHOLD: u32 = 80;

// Vertices come in groups of four: person, account, site, login. `groups` of them.
pub(crate) fn make_sample(heap: Global, groups: usize) -> Result<Sample<Pay>, AllocError> {
    let mut labels = Vec::new(heap);
    let mut ties = Vec::new(heap);
    let mut random = Random::new(2026);
    for group in 0..groups {
        labels.push(pay(PERSON))?;
        labels.push(pay(ACCOUNT))?;
        labels.push(pay(SITE))?;
        labels.push(pay(LOGIN))?;
        let person = group.saturating_mul(4);
        for (place, kind) in [(1, PAID_INTO), (2, WORKS_AT), (3, USES)] {
            let other = random.below(groups as u64) as usize;
            ties.push(Tie {
                from: person,
                to: other.saturating_mul(4).saturating_add(place),
                label: pay(kind),
            })?;
        }
        if group % 4 == 1 {
            ties.push(Tie {
                from: person,
                to: person.saturating_sub(4),
                label: pay(HOUSEHOLD),
            })?;
        }
    }
    Ok(Sample { labels, ties })
}
