// A dozen related patterns of persons, accounts, sites and logins.

use crate::sheet::{ACCOUNT, HOUSEHOLD, LOGIN, PAID_INTO, PERSON, SITE, USES, WORKS_AT};
use engine_cases::samples::Link;

// The codes of a pattern's vertices, and its ties.
#[derive(Clone, Copy)]
pub struct Model {
    pub codes: &'static [u32],
    pub links: &'static [Link],
}

// One person and what the person is linked to.
pub const ALONE: [Model; 4] = [
    Model {
        codes: &[PERSON, ACCOUNT],
        links: &[(0, 1, PAID_INTO)],
    },
    Model {
        codes: &[PERSON, SITE],
        links: &[(0, 1, WORKS_AT)],
    },
    Model {
        codes: &[PERSON, ACCOUNT, LOGIN],
        links: &[(0, 1, PAID_INTO), (0, 2, USES)],
    },
    Model {
        codes: &[PERSON, ACCOUNT, SITE, LOGIN],
        links: &[(0, 1, PAID_INTO), (0, 2, WORKS_AT), (0, 3, USES)],
    },
];

// Two persons who share something.
pub const SHARED: [Model; 4] = [
    Model {
        codes: &[PERSON, PERSON, ACCOUNT],
        links: &[(0, 2, PAID_INTO), (1, 2, PAID_INTO)],
    },
    Model {
        codes: &[PERSON, PERSON, ACCOUNT],
        links: &[(0, 2, PAID_INTO), (1, 2, PAID_INTO), (0, 1, HOUSEHOLD)],
    },
    Model {
        codes: &[PERSON, PERSON, LOGIN],
        links: &[(0, 2, USES), (1, 2, USES)],
    },
    Model {
        codes: &[PERSON, PERSON, ACCOUNT, LOGIN],
        links: &[
            (0, 2, PAID_INTO),
            (1, 2, PAID_INTO),
            (0, 3, USES),
            (1, 3, USES),
        ],
    },
];

// Larger ones.
pub const LARGE: [Model; 4] = [
    Model {
        codes: &[PERSON, PERSON, PERSON, ACCOUNT],
        links: &[(0, 3, PAID_INTO), (1, 3, PAID_INTO), (2, 3, PAID_INTO)],
    },
    Model {
        codes: &[PERSON, PERSON, ACCOUNT, SITE],
        links: &[(0, 2, PAID_INTO), (1, 2, PAID_INTO), (0, 3, WORKS_AT)],
    },
    Model {
        codes: &[PERSON, PERSON, ACCOUNT, SITE],
        links: &[
            (0, 2, PAID_INTO),
            (1, 2, PAID_INTO),
            (0, 3, WORKS_AT),
            (1, 3, WORKS_AT),
        ],
    },
    Model {
        codes: &[PERSON, PERSON, ACCOUNT, SITE, LOGIN],
        links: &[
            (0, 2, PAID_INTO),
            (1, 2, PAID_INTO),
            (0, 3, WORKS_AT),
            (0, 4, USES),
        ],
    },
];
