// The papers' numbers of the enums' cases.
ghost use Rattle.std.specs.Prelude.{◌≡◌};
ghost use Rattle.rules.specs.Numbers.{kind_number, kind_for, refusal_number, fault_number};

use crate::{Fault, JobKind, Refusal};

impl From<JobKind> for u16 {
    ghost from_gives = { λ kind number. number ≡ kind_number kind };

    fn from(kind: JobKind) -> u16 {
        match kind {
            JobKind::Authenticate => 1,
            JobKind::Sign => 2,
            JobKind::Decipher => 3,
        }
    }
}

// A number that is no kind's.
#[derive(Clone, Copy)]
pub struct NoKind;

impl TryFrom<u16> for JobKind {
    type Error = NoKind;

    ghost try_from_gives = { λ number kind. kind ≡ kind_for number };

    fn try_from(number: u16) -> Result<Self, NoKind> {
        match number {
            1 => Ok(JobKind::Authenticate),
            2 => Ok(JobKind::Sign),
            3 => Ok(JobKind::Decipher),
            _ => Err(NoKind),
        }
    }
}

impl From<Refusal> for u8 {
    ghost from_gives = { λ refusal number. number ≡ refusal_number refusal };

    fn from(refusal: Refusal) -> u8 {
        match refusal {
            Refusal::BadState => 1,
            Refusal::ShortBuffer => 2,
            Refusal::CertificateLength => 3,
            Refusal::JobWaiting => 4,
            Refusal::NoJobWaiting => 5,
        }
    }
}

impl From<Fault> for u8 {
    ghost from_gives = { λ fault number. number ≡ fault_number fault };

    fn from(fault: Fault) -> u8 {
        match fault {
            Fault::EndsEarly => 21,
            Fault::WrongCount => 22,
            Fault::BadCode => 23,
            Fault::BadKey => 24,
            Fault::BadReference => 25,
            Fault::RecordLength => 26,
            Fault::LeftOver => 27,
            Fault::UnblockingCount => 28,
        }
    }
}
