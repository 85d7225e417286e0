// "Refusal numbers": 01's table.
#![tactic(auto)]

ghost use Rattle.std.specs.Prelude.{◌≡◌};
ghost use Rattle.refusals.specs.Refusals.{number};

// Each with its number; specs/Refusals.antt has its sentence. The order is that of the numbers: of several the smallest decides.
#[derive(Clone, Copy, PartialEq, Eq, PartialOrd, Ord)]
pub enum Refusal {
    TooLong = 1,
    UnreadableItem = 2,
    NotDue = 3,
    TableFull = 4,
    WrongAttribute = 5,
    AgainstForm = 6,
    OutsideList = 7,
    AgainstValue = 8,
    UsedAgain = 9,
    BufferShort = 10,
    NotOneNote = 11,
    ContentUnfit = 12,
    NoRoomToWrite = 13,
}

// "Acceptance is number 0": where a note or the C interface tells a number, and nothing is refused.
pub const NO_REFUSAL: u32 = 0;

impl Refusal {
    // As a note and the C interface tell it. Ruled out: the number of another refusal; 0.
    pub fn number(self) -> u32
        ensures { result ≡ number self }
    {
        self as u32
    }
}
