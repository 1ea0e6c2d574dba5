// A sheet of lamps' hours, and why there is no answer to one.
ghost use Rattle.std.specs.Prelude.{◌≡◌, Some};
ghost use Rattle.lamp_report.specs.Job.{expected_text, reason};
ghost use Rattle.lamp_report.specs.declared.sheet.Fault.TheVariants.{Lamps, Memory};

use forecast::{Lamp, Refusal};
use std::alloc::{AllocError, AllocFailed};
use std::error::Error;
use std::fmt;

/// The line of a sheet that its first lamp stands on.
pub(crate) const FIRST_LAMP_LINE: usize = 2;

/// What a depot writes down: the pieces on its shelf, the period in hours that it plans for, and its lamps.
#[derive(Drop)]
pub struct Sheet {
    pub shelf: u64,
    pub period: u64,
    pub lamps: Vec<Lamp>,
}

/// Why there is no answer to a sheet.
#[derive(Clone, Copy, PartialEq, Eq, Debug)]
pub enum Fault {
    /// Memory ran out.
    Memory,
    /// The line with this number, counted from 1, has another form than two numbers one blank apart.
    Line(usize),
    /// The lamps or the period are refused.
    Lamps(Refusal),
}

// The impls are by hand: what `thiserror` derives has no contract, and `answer` and `explain` promise fault and bytes.
impl fmt::Display for Fault {
    ghost output = { λ fault. Some (reason fault) };

    fn fmt<W: fmt::Write>(&self, f: &mut fmt::Formatter<W>) -> fmt::Result {
        match *self {
            Fault::Memory => write!(f, "out of memory"),
            Fault::Line(n) => {
                let expected = expected(n);
                write!(
                    f,
                    "line {n}: expected {expected}, two numbers of at most ten digits, one blank apart"
                )
            }
            Fault::Lamps(Refusal::TooManyLamps) => write!(f, "refused (35): more than 1000 lamps"),
            Fault::Lamps(Refusal::PeriodTooLong) => {
                write!(f, "refused (36): line 1: a period above 10000 hours")
            }
            Fault::Lamps(Refusal::UnlawfulLamp(place)) => write!(
                f,
                "refused (37): lamp at place {place}, counted from 0: a life must be 1 to 65535 hours and the \
                 hours burned at most 1000000",
            ),
        }
    }
}

impl Error for Fault {}

// What a line should have held.
fn expected(n: usize) -> &'static str
    ensures { result.now ≡ expected_text n }
{
    if n == 1 {
        "shelf and period in hours"
    } else {
        "a lamp's hours burned and rated life"
    }
}

// Two impls for want of memory: `?` meets either of the library's two errors of it, and an impl is for one type.
impl From<AllocError> for Fault {
    ghost from_gives = { λ _ r. r ≡ Memory };

    fn from(_e: AllocError) -> Fault {
        Fault::Memory
    }
}

impl<T: Drop> From<AllocFailed<T>> for Fault {
    ghost from_gives = { λ _ r. r ≡ Memory };

    fn from(_e: AllocFailed<T>) -> Fault {
        Fault::Memory
    }
}

impl From<Refusal> for Fault {
    ghost from_gives = { λ e r. r ≡ Lamps e };

    fn from(e: Refusal) -> Fault {
        Fault::Lamps(e)
    }
}
