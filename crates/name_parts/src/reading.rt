//! What a name means.

ghost use Rattle.std.specs.Prelude.{◌≡◌, IfOk};
ghost use Rattle.name_parts.specs.Readings.{◌⊕◌, otherwise, after_meaning};

use std::alloc::AllocError;

/// Why a name is refused.
#[derive(Clone, Copy, Debug, PartialEq, Eq)]
pub enum Refusal {
    /// It can be read in two ways.
    SeveralMeanings,
    /// It is of a built-in function that isn't encoded: of threads, one that can be cancelled, or
    /// `[backpressure-set]`.
    NotEncoded,
    /// It is of a module with a memory of 64 bits.
    WideMemory,
}

/// What a name means in a world.
#[derive(Drop)]
pub enum Reading<R> {
    /// Nothing that the world knows.
    Nothing,
    Means(R),
    Refused(Refusal),
}

fn after_meaning<R: Drop>(meaning: R, other: Reading<R>) -> Reading<R>
    ensures { result ≡ after_meaning meaning other }
{
    match other {
        Reading::Nothing => Reading::Means(meaning),
        Reading::Means(second) => {
            drop(second);
            drop(meaning);
            Reading::Refused(Refusal::SeveralMeanings)
        }
        Reading::Refused(refusal) => {
            drop(meaning);
            Reading::Refused(refusal)
        }
    }
}

impl<R: Drop> Reading<R> {
    /// What a name means that can be read in two ways.
    #[tactic(auto, unfolding(crate::specs::Readings::joined))]
    pub fn or(self, other: Reading<R>) -> Reading<R>
        ensures { result ≡ self ⊕ other }
    {
        match self {
            Reading::Nothing => other,
            Reading::Means(meaning) => after_meaning(meaning, other),
            Reading::Refused(refusal) => {
                drop(other);
                Reading::Refused(refusal)
            }
        }
    }

    /// The first of two ways to read a name in which it means something.
    #[tactic(auto, unfolding(crate::specs::Readings::otherwise))]
    pub fn otherwise(self, other: Reading<R>) -> Reading<R>
        ensures { result ≡ otherwise self other }
    {
        match self {
            Reading::Nothing => other,
            first => {
                drop(other);
                first
            }
        }
    }
}

/// What a name means that can be read in two ways, each of which may have run out of memory.
pub fn either<R: Drop>(
    first: Result<Reading<R>, AllocError>,
    second: Result<Reading<R>, AllocError>,
) -> Result<Reading<R>, AllocError>
    ensures { (a b : Reading R) → IfOk first (λ x. x ≡ a) → IfOk second (λ x. x
        ≡ b) → IfOk result (λ x. x ≡ a ⊕ b) }
{
    match first {
        Ok(first) => after_first(first, second),
        Err(refused) => {
            drop(second);
            Err(refused)
        }
    }
}

fn after_first<R: Drop>(
    first: Reading<R>,
    second: Result<Reading<R>, AllocError>,
) -> Result<Reading<R>, AllocError>
    ensures { (b : Reading R) → IfOk second (λ x. x ≡ b) → IfOk result (λ x. x ≡ first ⊕ b) }
{
    match second {
        Ok(second) => Ok(first.or(second)),
        Err(refused) => {
            drop(first);
            Err(refused)
        }
    }
}

/// What a name means that can be read in three ways.
pub fn any_of_three<R: Drop>(
    first: Result<Reading<R>, AllocError>,
    second: Result<Reading<R>, AllocError>,
    third: Result<Reading<R>, AllocError>,
) -> Result<Reading<R>, AllocError>
    ensures { (a b c : Reading R) → IfOk first (λ x. x ≡ a) → IfOk second (λ x. x
        ≡ b) → IfOk third (λ x. x ≡ c) → IfOk result (λ x. x ≡ a ⊕ b ⊕ c) }
{
    either(either(first, second), third)
}
