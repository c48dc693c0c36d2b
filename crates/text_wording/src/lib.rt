// The refusals in words, one short sentence each: specs/Sentences.antt says which. A sentence is given, or put into a lent slice.
// Stands on `refusals`, whose refusals they are, and on `text_parts` and `buffer`.
#![tactic(auto)]

ghost use Rattle.std.specs.Prelude.{◌≡◌, ◌+◌, ◌≤◌, length};
ghost use Rattle.buffer.specs.Wrote.{Wrote};
ghost use Rattle.text_wording.specs.Sentences.{sentence};

use refusals::Refusal;
use text_parts::put_word;

// The sentence of a refusal.
#[tactic(auto, unfolding(crate::specs::Sentences::sentence))]
pub fn sentence(refusal: Refusal) -> &'static [u8]
    ensures { result.now ≡ sentence refusal }
{
    match refusal {
        Refusal::BrokenShot => b"the coordinates' count is not a multiple of three",
        Refusal::TooManyShots { .. } => b"there are more than 4,096 shots",
        Refusal::NoPlace { .. } => b"no three places are left for this shot",
        Refusal::UnknownBit { .. } => b"this map has a bit that has no meaning",
        Refusal::CutShort { .. } => b"the file ends before a field of this map, or is empty",
        Refusal::FieldRange => b"the field side is not 1 to 1,024",
        Refusal::EdgeRange => b"the shot edge is not 1 to the field side",
        Refusal::GridRange => b"the grid size is not 1 to 64, or does not divide the field side",
        Refusal::OutsideField { .. } => b"a shot leaves the field",
        Refusal::ShortWork { .. } => b"the work slice is too short for the grid index",
        Refusal::ShortListing { .. } => b"the listing buffer is shorter than 7 bytes a corner",
        Refusal::ShortFile { .. } => b"the byte buffer is shorter than the file",
        Refusal::NotVox { .. } => b"no VOX mark of version 150, or not the chunk required here",
        Refusal::BrokenChunk { .. } => b"this chunk is cut short, or a size of it does not match",
        Refusal::VoxelRange { .. } =>
            b"a side is not 1 to 256, or a voxel is outside or has colour 0",
        Refusal::ShortCredits { .. } => b"the credit slice has fewer places than there are shots",
        Refusal::NeedlessField { .. } => b"a field of this map says what its absence would mean",
        Refusal::InvalidTable { .. } =>
            b"a price table has a faulty band, no top, or more than 64 bands",
    }
}

// Puts the sentence of a refusal at a place that has 64 bytes after it, and gives the place after the sentence.
pub fn put_sentence(out: &mut [u8], at: usize, refusal: Refusal) -> usize
    requires { at + 64 ≤ length out.old }
    ensures { Wrote out.old out.new at result (sentence refusal) }
{
    put_word(out, at, sentence(refusal))
}
