// A lamp, and why a forecast over lamps is refused.
ghost use Rattle.std.specs.Prelude.{◌≡◌, ◌≤◌, true};
ghost use Rattle.forecast.specs.Checking.{lawful, max_period, number_of};
ghost use Rattle.forecast.specs.Hours.{lamp_need};

/// The longest rated life, in hours.
const MAX_LIFE: u64 = 65_535;
/// The most hours that a lamp can have burned.
const MAX_HOURS: u64 = 1_000_000;

/// A lamp: the hours that it has burned, and the hours that it is rated for.
#[derive(Clone, Copy, PartialEq, Eq, Debug)]
pub struct Lamp {
    pub hours: u64,
    pub life: u64,
}

impl Lamp {
    // Whether the life and the hours lie within their ranges.
    pub(crate) fn is_lawful(self) -> bool
        ensures { result ≡ lawful self }
    {
        (1..=MAX_LIFE).contains(&self.life) && self.hours <= MAX_HOURS
    }

    // The spares that the lamp needs over a period.
    pub(crate) fn need(self, period: u64) -> u32
        requires lawful { lawful self ≡ true }
        requires short { period ≤ max_period }
        ensures { result ≡ lamp_need period self }
    {
        ((self.hours + period) / self.life) as u32
    }
}

/// Why lamps and a period are not taken, in the order of the tests.
// no `Display` here: a storeman is told by the report, whose `Fault` has one that promises every byte
#[derive(Clone, Copy, PartialEq, Eq, Debug)]
pub enum Refusal {
    /// More than 1,000 lamps: refusal 35.
    TooManyLamps,
    /// A period above 10,000 hours: refusal 36.
    PeriodTooLong,
    /// A life outside 1 to 65,535 or hours above 1,000,000: refusal 37, with the place of the first such lamp, counted
    /// from 0.
    UnlawfulLamp(usize),
}

impl Refusal {
    /// The refusal's number in the book.
    // no `From`, nor a trait of all that have a number: `refusal.number()` names what `u8::from(refusal)` would not
    pub fn number(self) -> u8
        ensures { result ≡ number_of self }
    {
        match self {
            Refusal::TooManyLamps => 35,
            Refusal::PeriodTooLong => 36,
            Refusal::UnlawfulLamp(_) => 37,
        }
    }
}
