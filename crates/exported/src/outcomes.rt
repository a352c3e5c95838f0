//! What an exported call answers, in numbers.
ghost use Rattle.std.specs.Prelude.{◌≡◌};
ghost use Rattle.exchange.specs.declared.taking.TakeFault.TheVariants.{InModel};
ghost use Rattle.exported.specs.declared.outcomes.MergeFault.TheVariants.{NotTaken as NotMerged};
ghost use Rattle.exported.specs.declared.outcomes.ReduceFault.TheVariants.{NotTaken as NotReduced, NotSaved};
ghost use Rattle.exported.specs.declared.outcomes.Outcome.{Outcome as Told};
ghost use Rattle.exported.specs.Outcomes.{accepted, refused, outcome, fault_told, merge_told, reduce_told, check_told};

use checker::steps::Refused;
use exchange::taking::TakeFault;
use merger::answers::{OpenRefusal, Refusal};
use modelfile::faults::FaultNumbers;
use writing::protocol::WriteFault;

// Kept: a plain struct of numbers, since an enum or a Result does not cross to C.
/// A cause of 0 where the call is accepted, and then how much it wrote.
#[repr(C)]
#[derive(Clone, Copy, Debug, PartialEq, Eq)]
pub struct Outcome {
    /// 1 a number of the file, 2 the file, 3 the model; 0 for what else is refused.
    pub layer: u8,
    pub cause: u8,
    pub number: u16,
    pub place: usize,
    pub length: usize,
}

// Kept: two enums with one variant in common; a generic one would name its variants worse than the calls do.
// Why a model is not merged.
#[derive(Clone, Copy)]
pub enum MergeFault {
    NotTaken(TakeFault),
    // the text has no room for the listing
    NoRoom,
}

// Why no reduced model is written.
#[derive(Clone, Copy)]
pub enum ReduceFault {
    NotTaken(TakeFault),
    NotSaved(WriteFault),
}

impl From<TakeFault> for MergeFault {
    ghost from_gives = { λ fault r. r ≡ NotMerged fault };

    fn from(fault: TakeFault) -> MergeFault {
        MergeFault::NotTaken(fault)
    }
}

impl From<OpenRefusal> for MergeFault {
    ghost from_gives = { λ refusal r. r ≡ NotMerged (InModel refusal) };

    fn from(refusal: OpenRefusal) -> MergeFault {
        MergeFault::NotTaken(refusal.into())
    }
}

impl From<TakeFault> for ReduceFault {
    ghost from_gives = { λ fault r. r ≡ NotReduced fault };

    fn from(fault: TakeFault) -> ReduceFault {
        ReduceFault::NotTaken(fault)
    }
}

impl From<WriteFault> for ReduceFault {
    ghost from_gives = { λ fault r. r ≡ NotSaved fault };

    fn from(fault: WriteFault) -> ReduceFault {
        ReduceFault::NotSaved(fault)
    }
}

impl Outcome {
    fn accepted(length: usize) -> Outcome
        ensures { result ≡ accepted length }
    {
        Outcome {
            layer: 0,
            cause: 0,
            number: 0,
            place: 0,
            length,
        }
    }

    // Refused in no layer.
    fn refused(cause: u8) -> Outcome
        ensures { result ≡ refused cause }
    {
        Outcome {
            cause,
            ..Outcome::accepted(0)
        }
    }
}

impl From<FaultNumbers> for Outcome {
    ghost from_gives = { λ told r. r ≡ fault_told told };

    fn from(told: FaultNumbers) -> Outcome {
        Outcome {
            layer: told.layer,
            cause: told.cause,
            number: told.number,
            place: told.place,
            length: 0,
        }
    }
}

// A fault that an outcome tells.
pub trait Fault {
    // what it tells
    ghost told: { Self → Told };

    fn tell(self) -> Outcome
        ensures { result ≡ told self };
}

impl Fault for MergeFault {
    ghost told = { merge_told };

    fn tell(self) -> Outcome {
        match self {
            MergeFault::NotTaken(fault) => fault.numbers().into(),
            MergeFault::NoRoom => Outcome::refused(Refusal::ShortBuffer.number()),
        }
    }
}

impl Fault for ReduceFault {
    ghost told = { reduce_told };

    fn tell(self) -> Outcome {
        match self {
            ReduceFault::NotTaken(fault) => fault.numbers().into(),
            ReduceFault::NotSaved(fault) => Outcome::refused(fault.cause()),
        }
    }
}

impl Fault for Refused {
    ghost told = { check_told };

    fn tell(self) -> Outcome {
        let told = self.numbers();
        Outcome {
            number: told.number,
            place: told.place,
            ..Outcome::refused(told.cause)
        }
    }
}

// What a call answers in numbers.
pub fn answered<F: Fault>(answer: Result<usize, F>) -> Outcome
    ensures { result ≡ outcome F.told answer }
{
    match answer {
        Ok(length) => Outcome::accepted(length),
        Err(fault) => fault.tell(),
    }
}
