// What every entry point answers: a value, or a refusal, one of 01's causes with what stands beside its number; and the
// answer as C gets it, one number of 64 bits.
#![tactic(auto)]

ghost use Rattle.std.specs.Prelude.{◌≡◌, ◌+◌, ◌*◌, ◌%◌};
ghost use Rattle.answer.specs.Answer.{number, packed};
ghost use Rattle.answer.specs.Tests.{at as at_of};

// Why something is refused, with 01's number of each.
#[derive(Clone, Copy, PartialEq, Eq, Debug)]
pub enum Cause {
    Canvas = 1,
    Sources = 2,
    Rundown = 3,
    Check = 4,
    Form = 5,
    Floats = 6,
    Integers = 7,
    Priority = 8,
    Source = 9,
    Frame = 10,
    Scratch = 11,
    Room = 12,
    Absent = 13,
    Pass = 14,
    Bend = 15,
    Next = 16,
}

// Why a call is refused: the cause, and what stands beside its number.
#[derive(Clone, Copy, PartialEq, Eq, Debug)]
pub struct Refusal {
    pub cause: Cause,
    pub beside: usize,
}

impl Cause {
    // The refusal by this cause with n beside its number.
    pub fn at(self, n: usize) -> Refusal
        ensures { result ≡ record { cause = self; beside = n } }
    {
        Refusal {
            cause: self,
            beside: n,
        }
    }
}

// What a call hands back, as the count of layers.
pub type Answer = Result<usize, Refusal>;

// One thing among many that are tested, as a block.
pub type Verdict = Result<(), Cause>;

// 01's number of a cause.
impl From<Cause> for u32 {
    ghost from_gives = { λ c n. n ≡ number c };

    fn from(c: Cause) -> u32 {
        c as u32
    }
}

// The verdict on the thing number n.
#[tactic(auto, unfolding(crate::specs::Tests::at))]
pub fn at(n: usize, v: Verdict) -> Answer
    ensures { result ≡ at_of n v }
{
    match v {
        Ok(()) => Ok(n),
        Err(cause) => Err(cause.at(n)),
    }
}

// The answer as one number, as C gets it: the cause's number in the upper 32 bits, 0 where nothing is refused; the
// value, or what stands beside the number, in the lower ones. include/tiglostrema.h declares it so.
#[tactic(auto, unfolding(crate::specs::Answer::packed, crate::specs::Answer::returned))]
pub fn pack(a: Answer) -> u64
    ensures { result ≡ packed a }
{
    match a {
        Ok(n) => halves(0, n),
        Err(r) => halves(u32::from(r.cause), r.beside),
    }
}

// A u32 above, so that no number of a cause is too large. The sum is what the definition says, and a shift and a mask
// would say no more.
fn halves(upper: u32, lower: usize) -> u64
    ensures { result ≡ upper * 0x1_0000_0000 + lower % 0x1_0000_0000 }
{
    upper as u64 * 0x1_0000_0000 + lower as u64 % 0x1_0000_0000
}
