// Making a checked forecast, and asking it.
ghost use Rattle.std.specs.Prelude.{◌≡◌, ◌≤◌, ◌<◌, ◌^◌, not, position, true, All};
ghost use Rattle.forecast.specs.Answers.{Checks, need_at};
ghost use Rattle.forecast.specs.Checking.{first_unlawful, lawful, max_period};
ghost use Rattle.forecast.specs.Hours.{forecast, wish_for};

use crate::hours::LampHours;
use crate::lamp::{Lamp, Refusal};
use entries::MAX_WISH;

/// The most lamps of one forecast.
const MAX_LAMPS: usize = 1_000;
/// The longest period, in hours.
const MAX_PERIOD: u64 = 10_000;

impl LampHours {
    /// The forecast over these lamps and a period in hours. It refuses more than 1,000 lamps (35), then a period above
    /// 10,000 hours (36), then the first lamp whose life lies outside 1 to 65,535 or whose hours are above 1,000,000,
    /// with its place, counted from 0 (37).
    #[tactic(auto, using(crate::proofs::Lawful::first_place, crate::proofs::Lawful::lawful_from_none))]
    pub fn check(lamps: Vec<Lamp>, period: u64) -> Result<LampHours, Refusal>
        ensures { Checks lamps.items period result }
    {
        if lamps.len() > MAX_LAMPS {
            return Err(Refusal::TooManyLamps);
        }
        if period > MAX_PERIOD {
            return Err(Refusal::PeriodTooLong);
        }
        if let Some(place) = first_unlawful(lamps.as_slice()) {
            return Err(Refusal::UnlawfulLamp(place));
        }
        Ok(LampHours { lamps, period })
    }

    /// The spares that all lamps need over the period. It is never refused, and the same whenever it is asked.
    #[tactic(auto, using(crate::proofs::Lawful::each_lawful, crate::proofs::Lawful::forecast_bound))]
    pub fn need(&self) -> u32
        ensures { result ≡ forecast self.now.period self.now.lamps.items }
    {
        total_need(self.lamps.as_slice(), self.period)
    }

    /// The lamps.
    pub fn lamps(&self) -> &[Lamp]
        ensures { result.now ≡ self.now.lamps.items }
    {
        self.lamps.as_slice()
    }

    /// The period in hours.
    pub fn period(&self) -> u64
        ensures { result ≡ self.now.period }
    {
        self.period
    }

    /// The spares that the lamp at a place needs, counted from 0; none where there is no such lamp.
    #[tactic(auto, using(crate::proofs::Lawful::each_lawful))]
    pub fn need_at(&self, place: usize) -> Option<u32>
        ensures { result ≡ need_at self.now.period self.now.lamps.items place }
    {
        let lamp = self.lamps.get(place)?;
        Some(lamp.need(self.period))
    }
}

/// The wish that a depot with this need and this shelf should have: what the shelf lacks, at most 1,000,000.
pub fn proposed_wish(need: u32, shelf: u64) -> u32
    ensures { result ≡ wish_for need shelf }
{
    let lacking = u64::from(need).saturating_sub(shelf);
    lacking.min(u64::from(MAX_WISH)) as u32
}

// The place of the first lamp that is not lawful.
fn first_unlawful(lamps: &[Lamp]) -> Option<usize>
    ensures { result ≡ position (λ lamp. not (lawful lamp)) lamps.now }
{
    lamps.iter().position(|lamp| !lamp.is_lawful())
}

// The spares that lawful lamps need together over a period.
fn total_need(lamps: &[Lamp], period: u64) -> u32
    requires short { period ≤ max_period }
    requires each { All (λ lamp. lawful lamp ≡ true) lamps.now }
    requires fits { forecast period lamps.now < 2 ^ 32 }
    ensures { result ≡ forecast period lamps.now }
{
    lamps.iter().map(|lamp| lamp.need(period)).sum()
}
