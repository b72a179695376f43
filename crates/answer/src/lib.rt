// A refusal: why, by the document's table of refusal numbers, and the place that it names.
#![tactic(auto)]

ghost use Rattle.std.specs.Prelude.{◌≡◌};
ghost use Rattle.answer.specs.Said.{number_of};

// Why a call is refused, with the document's refusal numbers.
#[derive(Clone, Copy, PartialEq, Eq)]
pub enum Reason {
    Length = 1,
    Check = 2,
    Kind = 3,
    Edition = 4,
    Limits = 5,
    Unused = 6,
    Blocks = 7,
    Number = 8,
    Shape = 9,
    Permitted = 10,
    Period = 11,
    Work = 12,
    Late = 13,
    NoPlan = 14,
    Room = 15,
    Beyond = 16,
    Unfilled = 17,
    Altered = 18,
    NoneSuch = 19,
}

impl Reason {
    pub fn number(self) -> u8
        ensures { result ≡ number_of self }
    {
        self as u8
    }

    // The refusal that names this block.
    pub fn at(self, block: u32) -> Refusal
        ensures { result ≡ record { reason = self; at = block } }
    {
        Refusal {
            reason: self,
            at: block,
        }
    }
}

#[derive(Clone, Copy, PartialEq, Eq)]
pub struct Refusal {
    pub reason: Reason,
    pub at: u32,
}
