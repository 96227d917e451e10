//! The checks of a head, each with the refusal if it fails.
ghost use Rattle.std.specs.Prelude.{◌≡◌, OnOk, OnErr, IfErr, true, false};

use std::alloc::AllocError;

/// The cause for which a head is not accepted.
///
/// ```
/// let refused: Result<(), Fault<u16>> = demand(false, 404);
/// assert!(rt; refused == Err(Fault::Refused(404)));
/// ```
#[derive(Clone, Copy, Debug, PartialEq, Eq, Drop)]
pub enum Fault<R> {
    /// A check failed; this is its refusal.
    Refused(R),
    NoMemory,
}

impl<R> From<AllocError> for Fault<R> {
    ghost use Rattle.std.specs.Prelude.{◌≡◌};
    ghost use Rattle.relay_http_head.specs.declared.checks.Fault.TheVariants.{NoMemory};

    ghost from_gives = { λ _ fault. fault ≡ NoMemory };

    fn from(_: AllocError) -> Fault<R> {
        Fault::NoMemory
    }
}

/// Refuses with the refusal unless the condition holds.
///
/// ```
/// assert!(rt; demand(true, "no path") == Ok(()));
/// assert!(rt; demand(false, "no path") == Err(Fault::Refused("no path")));
/// ```
pub fn demand<R: Drop>(holds: bool, refusal: R) -> Result<(), Fault<R>>
    ensures passed { OnOk result (holds ≡ true) }
    ensures failed { OnErr result (holds ≡ false) }
    ensures refused { IfErr result (λ fault. fault ≡ Fault.Refused refusal) }
{
    if holds {
        Ok(())
    } else {
        Err(Fault::Refused(refusal))
    }
}
