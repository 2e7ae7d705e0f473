// Why a call is refused: a case for each number of documents 01 and 02, with that number's values. A call that may be refused answers a
// `Result<_, Refusal>`.
ghost use Rattle.std.specs.Prelude.{◌≡◌};
ghost use Rattle.rules.specs.Refused.{told_refusal};

#[derive(Clone, Copy, Debug, PartialEq, Eq)]
pub enum Refusal {
    // 1: the bank's length is no multiple of a record's.
    UnevenBank,
    // 2
    CatalogTooLarge,
    // 3: field 1 is the risk, 2 the confidence, 3 the minimum quality.
    InputOutOfRange {
        field: u8,
        value: u16,
        place: usize,
    },
    // 4
    NoRoom,
    // 5
    UnknownModel,
    // 6
    NothingSelected,
    // 7
    NotEligible,
    // 8
    BeyondBank,
    // 10: field 4 is the hard risk limit, 5 the minimum confidence, 6 the multiplier.
    PolicyOutOfRange {
        field: u8,
        value: u16,
    },
    // 11
    EmptyCatalog,
    // 12
    DuplicateModelId {
        model_id: u32,
    },
    // 13
    InvalidProviderId {
        model_id: u32,
        provider_id: u16,
    },
    // 14: field 7 is the quality, 8 the ceiling.
    ModelOutOfRange {
        field: u8,
        model_id: u32,
        value: u16,
    },
    // 15
    NoEnabledModels,
    // 16
    ReservedModelId,
    // 17
    InvalidEnabledFlag {
        model_id: u32,
        value: u8,
    },
    // 18
    TooManyToStore,
    // 19
    TooManyForProgram,
    // 20
    CutShort,
    // 21
    WrongTag,
    // 22
    WrongLength,
    // 23
    UnknownRounding,
    // 25: an allowance of 0 where one is said.
    ZeroAllowance,
    // 27: the catalogue epoch is at its largest.
    EpochSpent,
    // 28
    NoFreeSlot,
    // 34: a slot with id 0 has another byte set.
    SlotNotClear,
}

impl Refusal {
    // The documents' number.
    pub fn number(self) -> u8
        ensures { result ≡ (told_refusal self).number }
    {
        match self {
            Refusal::UnevenBank => 1,
            Refusal::CatalogTooLarge => 2,
            Refusal::InputOutOfRange { .. } => 3,
            Refusal::NoRoom => 4,
            Refusal::UnknownModel => 5,
            Refusal::NothingSelected => 6,
            Refusal::NotEligible => 7,
            Refusal::BeyondBank => 8,
            Refusal::PolicyOutOfRange { .. } => 10,
            Refusal::EmptyCatalog => 11,
            Refusal::DuplicateModelId { .. } => 12,
            Refusal::InvalidProviderId { .. } => 13,
            Refusal::ModelOutOfRange { .. } => 14,
            Refusal::NoEnabledModels => 15,
            Refusal::ReservedModelId => 16,
            Refusal::InvalidEnabledFlag { .. } => 17,
            Refusal::TooManyToStore => 18,
            Refusal::TooManyForProgram => 19,
            Refusal::CutShort => 20,
            Refusal::WrongTag => 21,
            Refusal::WrongLength => 22,
            Refusal::UnknownRounding => 23,
            Refusal::ZeroAllowance => 25,
            Refusal::EpochSpent => 27,
            Refusal::NoFreeSlot => 28,
            Refusal::SlotNotClear => 34,
        }
    }
}
