// Number fields of the list text: one form with parameters, read and written by one text.
#![tactic(auto)]

ghost use Rattle.std.specs.Prelude.{◌≡◌, ◌≤◌, nat_abs};
ghost use Rattle.digits.specs.Digits.{cap, plain};
ghost use Rattle.digits.specs.Signed.{signed_of, figure_signed};

// How a number stands in its field.
#[derive(Clone, Copy, PartialEq, Eq, Debug)]
pub struct Form {
    // So many digits before the point, or as many as there are, with no spare zero.
    pub digits: Option<usize>,
    pub decimals: usize,
    // Whether a "-" may stand first.
    pub signed: bool,
    // The number stands right in so many bytes, or its field is as long as it is.
    pub width: Option<usize>,
}

// A number with its sign. With decimals its size counts the last of them.
#[derive(Clone, Copy, PartialEq, Eq, Debug)]
pub struct Figure {
    pub negative: bool,
    pub size: u64,
}

// Above every range: a number that is more is read as this.
pub const CAP: u64 = 1_000_000_000_000_000_000;

// A figure as a signed number. No `From`: it asks that the size fits, and a `TryFrom` could fail where this cannot.
#[tactic(auto, unfolding(crate::specs::Signed::signed_of, crate::specs::Signed::minus))]
pub fn signed_of(z: Figure) -> i64
    requires { z.size ≤ cap }
    ensures { result ≡ signed_of z }
{
    let size = z.size as i64;
    if z.negative { -size } else { size }
}

// A number that is not below zero as a figure.
impl From<u64> for Figure {
    ghost from_gives = { λ size z. z ≡ plain size };

    fn from(size: u64) -> Figure {
        Figure {
            negative: false,
            size,
        }
    }
}

// A signed number as a figure.
impl From<i64> for Figure {
    ghost from_gives = { λ e z. z ≡ figure_signed e };

    #[tactic(auto, unfolding(crate::specs::Signed::figure_signed))]
    fn from(e: i64) -> Figure {
        Figure {
            negative: e < 0,
            size: e.unsigned_abs(),
        }
    }
}
