// Keys: whether a code and a label fit.
#![tactic(auto)]

ghost use Rattle.std.specs.Prelude.{◌≡◌, Bool};
ghost use Rattle.graphs.specs.declared.Code.{Code as TheCode};
ghost use Rattle.graphs.specs.Sights.{agree, same_code, same_kind};

use graphs::{Code, Pay};

pub mod bands;

// A set of pairs of a code and a label that fit. A question answers what the set says and leaves the key as it was.
pub trait Key<L> {
    // The pairs that fit.
    ghost fits: { Self → TheCode → L → Bool };

    // Whether the code and the label fit.
    fn fit(&self, code: Code, label: L) -> bool
        ensures { result ≡ fits self.now code label };
}

// Whether a code and a label agree: both are there and fit, or neither is there.
pub fn agrees<L: Drop, K: Key<L>>(key: &K, code: Option<Code>, label: Option<L>) -> bool
    ensures { result ≡ agree (K.Key.fits key.now) code label }
{
    match (code, label) {
        (Some(code), Some(label)) => key.fit(code, label),
        (None, None) => true,
        _ => false,
    }
}

// The same-code key: equal codes fit.
#[derive(Clone, Copy)]
pub struct SameCode;

impl Key<Code> for SameCode {
    ghost fits = { λ _. same_code };

    fn fit(&self, code: Code, label: Code) -> bool {
        code == label
    }
}

// The kind key: a code fits a pay label of that kind, whatever the amount.
#[derive(Clone, Copy)]
pub struct SameKind;

impl Key<Pay> for SameKind {
    ghost fits = { λ _. same_kind };

    fn fit(&self, code: Code, label: Pay) -> bool {
        code.number == label.kind
    }
}
