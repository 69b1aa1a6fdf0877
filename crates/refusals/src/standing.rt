// What a function takes that only tells a refusal's number: a refusal, or the number alone.
ghost use Rattle.std.specs.Prelude.{◌≡◌, ℕ};
ghost use Rattle.refusals.specs.Refusals.{number};

use crate::Refusal;

// What stands for a refusal by a number: a refusal of the table, or any number in its place. A function that tells the
// number is generic over it, so that it asks no more of a caller than a number of 8 bits.
pub trait Numbered: Copy {
    ghost numbered: { Self → ℕ };

    // The number that it stands for.
    fn number(self) -> u8
        ensures { result ≡ numbered self };

    // What stands for a refusal of the table.
    fn of(refusal: Refusal) -> Self
        ensures { numbered result ≡ number refusal };
}

impl Numbered for Refusal {
    ghost numbered = { number };

    fn number(self) -> u8 {
        Refusal::number(self)
    }

    fn of(refusal: Refusal) -> Refusal {
        refusal
    }
}

impl Numbered for u8 {
    ghost numbered = { λ n. n };

    fn number(self) -> u8 {
        self
    }

    fn of(refusal: Refusal) -> u8 {
        Refusal::number(refusal)
    }
}
