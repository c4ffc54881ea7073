// Why a call refuses what it is given, and the number of each refusal.
#![tactic(auto)]

ghost use Rattle.std.specs.Prelude.{◌≡◌};
ghost use Rattle.refusal.specs.Numbers as Numbers;

// Each in the order of its number, from 1 on.
#[derive(Clone, Copy, PartialEq, Eq)]
pub enum Refusal {
    // The set is not as long as one is.
    TablesLength,
    // The room for samples, or for numbers, is not as large as they are.
    Room,
    // A frame is not 20 bytes long, or several are not 1 to 64 frames.
    FrameLength,
    // The set breaks a set rule.
    TablesRule,
    // The state breaks the state rule.
    StateRule,
    // One of the two highest bits of a frame's last byte is set.
    Padding,
    // A code index of the frame has no position under this set.
    CodeIndex,
    // A field is wider than its bits.
    FieldWidth,
    // A line is no frame in hexadecimal.
    NoFrameLine,
    // A line is none of a receiver's digits.
    NoReceiverLine,
    // The image is not as long as a state's is.
    ImageLength,
    // The shelf's records or images are of another number or length.
    ShelfLength,
    // There is no such slot, or it has no users.
    NoSlot,
    // No slot is free, or this one has as many users as one may have.
    SlotFull,
    // No save is at or below the frame that is sought, or the recording has no such frame.
    NoFrame,
}

impl Refusal {
    // The number that C, the programs and the documents know it by.
    pub fn number(self) -> u8
        ensures { result ≡ Numbers.number self }
    {
        match self {
            Refusal::TablesLength => 1,
            Refusal::Room => 2,
            Refusal::FrameLength => 3,
            Refusal::TablesRule => 4,
            Refusal::StateRule => 5,
            Refusal::Padding => 6,
            Refusal::CodeIndex => 7,
            Refusal::FieldWidth => 8,
            Refusal::NoFrameLine => 9,
            Refusal::NoReceiverLine => 10,
            Refusal::ImageLength => 11,
            Refusal::ShelfLength => 12,
            Refusal::NoSlot => 13,
            Refusal::SlotFull => 14,
            Refusal::NoFrame => 15,
        }
    }
}

// The number of what is answered: 0 where nothing is refused.
pub fn told(answer: Result<(), Refusal>) -> u8
    ensures { result ≡ Numbers.told answer }
{
    match answer {
        Ok(()) => 0,
        Err(why) => why.number(),
    }
}
