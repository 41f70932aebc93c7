// What is answered of a front's file.
ghost use Rattle.std.specs.Prelude.{◌≡◌};
ghost use Rattle.ksi_c.specs.Fronts.{front_answered, front_fault_told, front_refusal_told};

use crate::answer::KsiAnswer;
use crate::telling::{answer, at_place, digests_told, numbers_told};
use crate::told::Told;
use ksi_consistency::{FileRefusal, FrontFault, FrontRefusal};

/// The number of the file of a front.
const FRONT: u32 = 4;

/// What is answered of a check between two roots.
pub(crate) fn front_answered(checked: &Result<(), FileRefusal>) -> KsiAnswer
    ensures { result ≡ front_answered checked.now }
{
    match checked {
        Ok(()) => answer(0, 0, 0, &numbers_told(0, [0; 4])),
        Err(FileRefusal::Malformed(fault)) => answer(3, FRONT, 0, &front_fault_told(*fault)),
        Err(FileRefusal::OtherSeconds { p1, p2 }) => {
            answer(1, FRONT, 0, &numbers_told(5, [*p1, *p2, 0, 0]))
        }
        Err(FileRefusal::NotAccepted(refusal)) => {
            answer(1, FRONT, 0, &front_refusal_told(refusal))
        }
    }
}

fn front_fault_told(fault: FrontFault) -> Told
    ensures { result ≡ front_fault_told fault }
{
    match fault {
        FrontFault::Magic => numbers_told(1, [0; 4]),
        FrontFault::Tlv(place) => at_place(2, place),
        FrontFault::Order(place) => at_place(3, place),
        FrontFault::Imprint(place) => at_place(4, place),
        FrontFault::Number(place) => at_place(5, place),
    }
}

fn front_refusal_told(refusal: &FrontRefusal) -> Told
    ensures { result ≡ front_refusal_told refusal.now }
{
    match refusal {
        FrontRefusal::Length { needed, given } => {
            numbers_told(1, [*needed as u64, *given as u64, 0, 0])
        }
        FrontRefusal::OldDiffers { computed, given } => digests_told(2, 0, 0, computed, given),
        FrontRefusal::NewDiffers { computed, given } => digests_told(3, 0, 0, computed, given),
    }
}
