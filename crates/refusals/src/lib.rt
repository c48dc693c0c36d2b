// Why a call is refused: the refusals by their published numbers, what is told of each, and what a list of tests decides. docs/SCOPE.md,
// 'When a job is refused'. specs/Refusals.antt says what is told of a refusal, specs/Tests.antt which of a call's tests decides, and
// specs/Deciding.antt when a call accepts and refuses; proofs/Deciding.antt has the laws by which a call's tests are put together. Stands on
// nothing.
#![tactic(auto)]

ghost use Rattle.std.specs.Prelude.{◌≡◌};
ghost use Rattle.refusals.specs.Refusals.{notice_of};

// Why a call is refused, in the order of their numbers, with the detail where there is one.
#[derive(Clone, Copy, Debug, PartialEq, Eq)]
pub enum Refusal {
    // The coordinates' count is not a multiple of three.
    BrokenShot,
    // There are more than 4,096 shots; `at` is the place of the map where a reader met the first one too many, and 0 elsewhere.
    TooManyShots { at: usize },
    // The reader has no place for the shot whose map is at `at`.
    NoPlace { at: usize },
    // The map at `at` has a bit that has no meaning.
    UnknownBit { at: usize },
    // The file ends before a field of the map at `at`, or has no header map.
    CutShort { at: usize },
    // The field side is outside its range.
    FieldRange,
    // The shot edge is outside its range.
    EdgeRange,
    // The grid size is outside its range, or does not divide the field side.
    GridRange,
    // This shot, and none before it, leaves the field.
    OutsideField { shot: usize },
    // The work slice is shorter than these entries.
    ShortWork { entries: usize },
    // The listing buffer is shorter than the records of these corners.
    ShortListing { corners: usize },
    // The byte buffer is shorter than the file of these bytes.
    ShortFile { bytes: usize },
    // Where the mark of a VOX file or a chunk is required, at `at`, there is another or none.
    NotVox { at: usize },
    // The chunk at `at` is cut short, or a size of it overruns or does not match.
    BrokenChunk { at: usize },
    // The SIZE chunk at `at` has a side outside its range, or the voxel at `at` is outside SIZE or has colour 0.
    VoxelRange { at: usize },
    // The credit slice has fewer places than these shots.
    ShortCredits { shots: usize },
    // A field of the map at `at` says what its absence would mean.
    NeedlessField { at: usize },
    // A price table has this faulty band, or so many bands and not the top; 64, where it has more than 64 bands.
    InvalidTable { band: usize },
}

// Where a refusal is met; the refusal's detail says at which one.
#[derive(Clone, Copy, Debug, PartialEq, Eq)]
pub enum Place {
    // At a byte of a file, where the faulty record, mark, chunk or voxel begins.
    Byte,
    // At a shot of the list.
    Shot,
    // Nowhere in particular.
    Nowhere,
}

// What is told of a refusal: its number in the published list, its detail, 0 where it has none, and where it is met.
#[derive(Clone, Copy, Debug, PartialEq, Eq)]
pub struct Notice {
    pub number: u8,
    pub detail: usize,
    pub met: Place,
}

// What is told of a refusal.
pub fn notice_of(refusal: Refusal) -> Notice
    ensures number { result.number ≡ (notice_of refusal).number }
    ensures detail { result.detail ≡ (notice_of refusal).detail }
    ensures met { result.met ≡ (notice_of refusal).met }
{
    let (number, detail, met) = match refusal {
        Refusal::BrokenShot => (1, 0, Place::Nowhere),
        Refusal::TooManyShots { at } => (2, at, Place::Byte),
        Refusal::NoPlace { at } => (3, at, Place::Byte),
        Refusal::UnknownBit { at } => (4, at, Place::Byte),
        Refusal::CutShort { at } => (5, at, Place::Byte),
        Refusal::FieldRange => (6, 0, Place::Nowhere),
        Refusal::EdgeRange => (7, 0, Place::Nowhere),
        Refusal::GridRange => (8, 0, Place::Nowhere),
        Refusal::OutsideField { shot } => (9, shot, Place::Shot),
        Refusal::ShortWork { entries } => (10, entries, Place::Nowhere),
        Refusal::ShortListing { corners } => (11, corners, Place::Nowhere),
        Refusal::ShortFile { bytes } => (12, bytes, Place::Nowhere),
        Refusal::NotVox { at } => (13, at, Place::Byte),
        Refusal::BrokenChunk { at } => (14, at, Place::Byte),
        Refusal::VoxelRange { at } => (15, at, Place::Byte),
        Refusal::ShortCredits { shots } => (16, shots, Place::Nowhere),
        Refusal::NeedlessField { at } => (17, at, Place::Byte),
        Refusal::InvalidTable { band } => (18, band, Place::Nowhere),
    };
    Notice {
        number,
        detail,
        met,
    }
}
