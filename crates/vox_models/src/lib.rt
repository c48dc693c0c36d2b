// Whether a VOX file has more models than the one that is read: a chunk XYZI after the first. docs/SCOPE.md, 'VOX file', where further chunks
// are passed. specs/Models.antt says what that is of the bytes. Stands on `vox_chunks`.
#![tactic(auto)]

ghost use Rattle.std.specs.Prelude.{◌≡◌};
ghost use Rattle.vox_models.specs.Models.{model_from, further_model};

use vox_chunks::{after_chunk, is_overrun, is_there};

// The name of the chunk that holds a model's voxels, and where the first one stands.
const XYZI: [u8; 4] = *b"XYZI";

const XYZI_AT: usize = 44;

// Whether some chunk from a place on is XYZI.
// Kept so: each step is as long as the chunk that stands there, so that no range or part of a slice has these places.
fn has_model(bytes: &[u8], start: usize) -> bool
    ensures { result ≡ model_from bytes.now start }
{
    let mut at = start;
    while at < bytes.len() && !is_overrun(bytes, at) {
        if is_there(bytes, at, &XYZI) {
            return true;
        }
        at = after_chunk(bytes, at);
    }
    false
}

// Whether a further model follows the first.
pub fn has_further(bytes: &[u8]) -> bool
    ensures { result ≡ further_model bytes.now }
{
    XYZI_AT <= bytes.len()
        && !is_overrun(bytes, XYZI_AT)
        && has_model(bytes, after_chunk(bytes, XYZI_AT))
}
