// The table of refusals: why a call refuses, and the slot it was found at.
#![tactic(auto)]

ghost use Rattle.std.specs.Prelude.{◌≡◌, ◌≤◌, Err};
ghost use Rattle.refusals.specs.Answers.{refusal_number, last_number};

// The rows of the table, each with its number. `NameMissing` is given no more; its number stays its own.
#[derive(Clone, Copy, Debug, PartialEq, Eq)]
pub enum Reason {
    NotAnImage = 1,
    KindUnknown = 2,
    NameMissing = 3,
    CountOutOfRange = 4,
    BitsDiffer = 5,
    FirstNotOwn = 6,
    LengthTooGreat = 7,
    SectorShared = 8,
    NameTwice = 9,
    ChainBroken = 10,
    HeaderDiffers = 11,
    NameNotUsable = 12,
    WrongKind = 13,
    StartOutOfRange = 14,
    NameNotFound = 15,
    NameTaken = 16,
    FileProtected = 17,
    NoFreeSlot = 18,
    TooFewSectors = 19,
    BufferTooShort = 20,
    NoSuchSector = 21,
    WasteSectors = 22,
    NamesNotTens = 23,
    TracksOutOfRange = 24,
    BodyTooLong = 25,
    CodeNotOwn = 26,
    NoSuchDirectory = 27,
    InsideItself = 28,
    DirectoryNotEmpty = 29,
    RecordingMoved = 30,
    ReportFull = 31,
    NoFreeRun = 32,
}

impl Reason {
    // The number of a reason in the table.
    pub fn number(self) -> usize
        ensures { (result ≡ refusal_number self) × (result ≤ last_number) }
    {
        self as usize
    }
}

// A refusal: its reason, and the slot (from 1) it was found at, or 0.
#[derive(Clone, Copy, Debug, PartialEq, Eq)]
pub struct Refused {
    pub reason: Reason,
    pub slot: usize,
}

// What refuses, of a check or of any other call.
pub fn refuse<T>(reason: Reason, slot: usize) -> Result<T, Refused>
    ensures { result ≡ Err (record { reason = reason; slot = slot }) }
{
    Err(Refused { reason, slot })
}
