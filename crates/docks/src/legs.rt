// What a leg is worth in each kind of value.
ghost use Rattle.std.specs.Prelude.{◌≡◌, ℕ, ◌+◌, min};
ghost use Rattle.semiring.specs.Kinds.{time};
ghost use Rattle.docks.specs.Answers.{runs, counts_once};

use crate::dock::Dock;
use semiring::{Count, Semiring, Time};

impl Dock {
    // The time of the way over it, or none.
    pub(crate) fn time(&self) -> Time
        ensures { result.value ≡ min (self.now.leg_in.value + self.now.leg_out.value) 4294967295 }
    {
        self.leg_in.mul(self.leg_out)
    }
}

// A kind that a time is worth a value of. The contracts over all docks name the function, which `From` does not give.
pub(crate) trait Leg: Sized {
    ghost worth: { ℕ → Self };

    fn leg(time: Time) -> Self
        ensures { result ≡ worth time.value };
}

// A time is itself.
impl Leg for Time {
    ghost worth = { time };

    fn leg(time: Time) -> Time {
        time
    }
}

// A leg that runs counts once.
impl Leg for Count {
    ghost worth = { counts_once };

    fn leg(time: Time) -> Count {
        Count::new(u32::from(bool::leg(time)))
    }
}

// A leg runs or does not.
impl Leg for bool {
    ghost worth = { runs };

    fn leg(time: Time) -> bool {
        !time.is_zero()
    }
}
