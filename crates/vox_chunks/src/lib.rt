// The bytes of a VOX file at a place: 32-bit numbers, names of four bytes, chunks. docs/SCOPE.md, 'VOX file'. specs/Chunks.antt says
// what they are. Stands on `text_same`, and on `ground`, whose laws about tests it uses.
#![tactic(auto)]

ghost use Rattle.std.specs.Prelude.{◌≡◌, ◌+◌, ◌*◌, ◌≤◌, length};
ghost use Rattle.vox_chunks.specs.Chunks.{number_at, stands, after_chunk, missing, overruns, mismatched};

use text_same::same_bytes;

// The 32-bit number at a place.
pub fn number(bytes: &[u8], at: usize) -> u32
    requires { at + 4 ≤ length bytes.now }
    ensures { result ≡ number_at bytes.now at }
{
    u32::from_le_bytes([bytes[at], bytes[at + 1], bytes[at + 2], bytes[at + 3]])
}

// Whether these four bytes stand at a place.
pub fn is_there(bytes: &[u8], at: usize, name: &[u8]) -> bool
    requires { at + 4 ≤ length bytes.now }
    ensures { result ≡ stands bytes.now at name.now }
{
    let end = at + 4;
    same_bytes(&bytes[at..end], name)
}

// Whether a required chunk is missing at a place, for 13.
pub fn is_missing(bytes: &[u8], at: usize, name: &[u8]) -> bool
    ensures { result ≡ missing bytes.now at name.now }
{
    bytes.len() <= at || (4 <= bytes.len() - at && !is_there(bytes, at, name))
}

// The place after a chunk with its content and its children.
pub fn after_chunk(bytes: &[u8], at: usize) -> usize
    requires { at + 12 ≤ length bytes.now }
    ensures { result ≡ after_chunk bytes.now at }
{
    let content = number(bytes, at + 4) as usize;
    let children = number(bytes, at + 8) as usize;
    at + 12 + content + children
}

// Whether the file ends before the chunk at a place does, for 14.
pub fn is_overrun(bytes: &[u8], at: usize) -> bool
    requires { at ≤ length bytes.now }
    ensures { result ≡ overruns bytes.now at }
{
    bytes.len() - at < 12 || bytes.len() < after_chunk(bytes, at)
}

// Whether the chunk at a place is not whole, has children or has content of another size, for 14.
pub fn is_mismatched(bytes: &[u8], at: usize, content: usize) -> bool
    requires { at ≤ length bytes.now }
    ensures { result ≡ mismatched bytes.now at content }
{
    is_overrun(bytes, at) || number(bytes, at + 8) != 0 || number(bytes, at + 4) as usize != content
}
