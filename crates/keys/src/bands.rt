// The band key: what a code fits, row by row.

ghost use Rattle.std.specs.Prelude.{◌≡◌};
ghost use Rattle.keys.specs.Bands.{first_band, band_fits};

use crate::Key;
use graphs::{Code, Pay};

// A row: the code fits pay labels of this kind with an amount from low to high pence, both ends counting.
#[derive(Clone, Copy)]
pub struct Band {
    pub code: Code,
    pub kind: u32,
    pub low: u32,
    pub high: u32,
}

// The band key, on the caller's rows. The first row with the code decides. A code without a row fits nothing.
#[derive(Clone, Copy)]
pub struct Bands<'a> {
    pub rows: &'a [Band],
}

// The first row with the code.
fn first_band(rows: &[Band], code: Code) -> Option<Band>
    ensures { result ≡ first_band rows.now code }
{
    rows.iter().copied().find(|row| row.code == code)
}

impl<'a> Key<Pay> for Bands<'a> {
    ghost fits = { λ k. band_fits k.rows.now };

    fn fit(&self, code: Code, label: Pay) -> bool {
        first_band(self.rows, code).is_some_and(|band| {
            band.kind == label.kind && (band.low..=band.high).contains(&label.pence)
        })
    }
}
