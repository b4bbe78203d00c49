// Every reason for which an operation says no, and its number: document 01's to 20, document 02's above.
ghost use Rattle.std.specs.Prelude.{◌≡◌};
ghost use Rattle.sheet.specs.Refusals.{number_of};

#[derive(Clone, Copy, Debug, PartialEq, Eq)]
pub enum Refusal {
    Contents,
    Positions,
    Header,
    Targets,
    Moves,
    Stuck,
    Size,
    Buffers,
    Output,
    TableContents,
    TableShape,
    NoInitialWord,
    Unobserved,
    NoAction,
    LastTurn,
    UnknownPosition,
    TooOld,
    TooNew,
    Contradiction,
    State,
    Mismatch,
    TooMany,
    NoSuchPosition,
    Gates,
}

// The number of a refusal, by document 01's match from refusals to numbers.
impl From<Refusal> for u8 {
    ghost from_gives = { λ refusal n. n ≡ number_of refusal };

    fn from(refusal: Refusal) -> u8 {
        match refusal {
            Refusal::Contents => 1,
            Refusal::Positions => 2,
            Refusal::Header => 3,
            Refusal::Targets => 4,
            Refusal::Moves => 5,
            Refusal::Stuck => 6,
            Refusal::Size => 7,
            Refusal::Buffers => 8,
            Refusal::Output => 9,
            Refusal::TableContents => 10,
            Refusal::TableShape => 11,
            Refusal::NoInitialWord => 12,
            Refusal::Unobserved => 13,
            Refusal::NoAction => 14,
            Refusal::LastTurn => 15,
            Refusal::UnknownPosition => 16,
            Refusal::TooOld => 17,
            Refusal::TooNew => 18,
            Refusal::Contradiction => 19,
            Refusal::State => 20,
            Refusal::Mismatch => 21,
            Refusal::TooMany => 22,
            Refusal::NoSuchPosition => 23,
            Refusal::Gates => 24,
        }
    }
}
