// The refusals (RULES, section 9), and the number of each.
ghost use Rattle.std.specs.Prelude.{◌≡◌};
ghost use Rattle.rules.specs.Refusals.{refusal_number, outcome_number};

// Why a call, a load, a writing, a plan or a least mask is refused (RULES 9.1). Each has its number there. 10, 28 and 29 are given by nothing (RULES 9.2).
#[derive(Clone, Copy, Debug, PartialEq, Eq)]
pub enum Refusal {
    // The machine is not sound.
    Unsound = 1,
    // The right is neither READ nor WRITE.
    NoSuchRight = 2,
    // A byte that is touched is outside memory.
    OutsideMemory = 3,
    // The page is the page count or more.
    NoSuchPage = 4,
    // The domain is above 15.
    NoSuchDomain = 5,
    // The mode is privileged.
    PrivilegedMode = 6,
    // The mode is user.
    UserMode = 7,
    // The flag is set.
    InterruptPending = 8,
    // No domain of the local context is in the field of a page that is touched.
    Violation = 9,
    // No domain prevails, or one outside the local context.
    NotPrevailing = 11,
    // The domain is not of lower level than the prevailing one.
    NotLower = 12,
    // The stack of saved modes is full.
    StackFull = 13,
    // The stack of saved modes is empty.
    StackEmpty = 14,
    // The depth is not 1.
    DepthNotOne = 15,
    // The named program is the program count or more.
    NoSuchProgram = 16,
    // The number of the mode is above 1.
    NoSuchMode = 17,
    // The record is of no known kind.
    NoSuchCall = 18,
    // The mask shares no domain with the live global context.
    EmptyMask = 19,
    // The image is too short or too long.
    WrongLength = 20,
    // A kind or a zero byte in the table of contents.
    WrongKinds = 21,
    // Offset or length of the shape.
    WrongShapeEntry = 22,
    // A count, the exponent, the shape's last byte, or too much memory.
    WrongShape = 23,
    // Offset or length of pages or programs, or the image's end.
    WrongBodies = 24,
    // A mode byte.
    WrongModes = 25,
    // Another program than 0 runs, a mode is saved, or the flag is set.
    NotAtRest = 26,
    // The buffer is too short for the image.
    ShortBuffer = 27,
    // No context, or more than sixteen.
    WrongCount = 30,
    // A parent is none of the contexts.
    NoSuchParent = 31,
    // A context is its own ancestor.
    Cycle = 32,
    // More than 64 pairs.
    TooManyPairs = 33,
    // No mask will do.
    NoMask = 34,
}

impl From<Refusal> for u8 {
    ghost from_gives = { λ refusal number. number ≡ refusal_number refusal };

    fn from(refusal: Refusal) -> u8 {
        refusal as u8
    }
}

// The number of an outcome: 0 where nothing refuses it (RULES 2.3).
pub fn outcome_number<T: Copy>(outcome: Result<T, Refusal>) -> u8
    ensures { result ≡ outcome_number outcome }
{
    match outcome {
        Ok(_) => 0,
        Err(refusal) => refusal.into(),
    }
}
