// One record of a shot file: a map byte, then the 16-bit fields whose bits stand in it, least byte first. docs/SCOPE.md, 'Shot file'.
// specs/Records.antt says how a record is read and what its shortest form is, specs/Numbers.antt which numbers say a job's settings and a
// shot. Stands on `buffer`, on `refusals`, whose refusals it gives, and on `job` and `lattice`.
#![tactic(auto)]

ghost use Rattle.std.specs.Prelude.{◌≡◌, [], ◌∷◌, ◌≤◌, ◌<◌, ◌+◌, ◌*◌, length};
ghost use Rattle.shotfile_records.specs.Records.{field_at, record_at, header_absent, first_absent, bit_of, field_of, map_of, record_of};
ghost use Rattle.std.specs.Int.{from_bool};
ghost use Rattle.buffer.specs.Wrote.{Wrote};

use refusals::Refusal;

// What the header says where it leaves out the field side, the shot edge or the grid size.
const FIELD: u16 = 1024;

const EDGE: u16 = 16;

const GRID: u16 = 16;

// The three numbers of a record: F, E, G of the header, x, y, z of a shot.
#[derive(Clone, Copy)]
pub struct Fields {
    pub first: u16,
    pub second: u16,
    pub third: u16,
}

// A whole record at a place of a file: its numbers, and the place after it.
#[derive(Clone, Copy)]
pub struct Record {
    pub fields: Fields,
    pub end: usize,
}

// The numbers that the header's absent fields mean.
// Kept so: a constant has no contract, and callers' proofs go by what this one and `first_absent` promise.
pub fn header_absent() -> Fields
    ensures { result ≡ header_absent }
{
    Fields {
        first: FIELD,
        second: EDGE,
        third: GRID,
    }
}

// The numbers that the first shot's absent fields mean.
pub fn first_absent() -> Fields
    ensures { result ≡ first_absent }
{
    Fields {
        first: 0,
        second: 0,
        third: 0,
    }
}

// A field at a place: the number there if the field stands, else what its absence means.
fn field(bytes: &[u8], at: usize, stands: bool, absent: u16) -> u16
    requires { at + 2 * from_bool stands ≤ length bytes.now }
    ensures { result ≡ field_at bytes.now at (from_bool stands) absent }
{
    if !stands {
        return absent;
    }
    u16::from_le_bytes([bytes[at], bytes[at + 1]])
}

// Whether a number has a field of its own in the shortest record: its absence says another.
fn stands(absent: u16, number: u16) -> bool
    ensures { from_bool result ≡ bit_of absent number }
{
    number != absent
}

// The map of the shortest record of these numbers: a bit for each that is not what its absence means.
fn map_of(absent: Fields, fields: Fields) -> u8
    ensures { result ≡ map_of absent fields }
{
    let b1 = u8::from(stands(absent.first, fields.first));
    let b2 = u8::from(stands(absent.second, fields.second));
    let b3 = u8::from(stands(absent.third, fields.third));
    b1 + 2 * b2 + 4 * b3
}

// Takes the record whose map is at a place, if no field of it says what its absence means: then its map is that of the shortest record.
pub fn take_record(bytes: &[u8], at: usize, absent: Fields) -> Result<Record, Refusal>
    ensures { result ≡ record_at bytes.now at absent }
{
    if bytes.len() <= at {
        return Err(Refusal::CutShort { at });
    }
    let map = bytes[at];
    if 8 <= map {
        return Err(Refusal::UnknownBit { at });
    }
    let b1 = map % 2 == 1;
    let b2 = map / 2 % 2 == 1;
    let b3 = map / 4 == 1;
    let second = at + 1 + 2 * usize::from(b1);
    let third = second + 2 * usize::from(b2);
    let end = third + 2 * usize::from(b3);
    if bytes.len() < end {
        return Err(Refusal::CutShort { at });
    }
    let fields = Fields {
        first: field(bytes, at + 1, b1, absent.first),
        second: field(bytes, second, b2, absent.second),
        third: field(bytes, third, b3, absent.third),
    };
    if map != map_of(absent, fields) {
        return Err(Refusal::NeedlessField { at });
    }
    Ok(Record { fields, end })
}

// How many bytes a field takes: two where its bit stands.
fn field_length(absent: u16, value: u16) -> usize
    ensures { result ≡ length (field_of absent value) }
{
    2 * usize::from(stands(absent, value))
}

// How many bytes the shortest record of these numbers takes.
pub fn record_length(absent: Fields, fields: Fields) -> usize
    ensures { result ≡ length (record_of absent fields) }
{
    let first = field_length(absent.first, fields.first);
    let second = field_length(absent.second, fields.second);
    let third = field_length(absent.third, fields.third);
    1 + first + second + third
}

// Writes a field at a place, unless its absence says it, and gives the place after it.
fn put_field(bytes: &mut [u8], at: usize, absent: u16, number: u16) -> usize
    requires { at + length (field_of absent number) ≤ length bytes.old }
    ensures { Wrote bytes.old bytes.new at result (field_of absent number) }
{
    if number == absent {
        return at;
    }
    let end = at + 2;
    bytes[at..end].copy_from_slice(&number.to_le_bytes());
    end
}

// Writes the map of a record at a place, and gives the place after it.
fn put_map(bytes: &mut [u8], at: usize, absent: Fields, fields: Fields) -> usize
    requires { at < length bytes.old }
    ensures { Wrote bytes.old bytes.new at result (map_of absent fields ∷ []) }
{
    bytes[at] = map_of(absent, fields);
    at + 1
}

// Writes the shortest record of these numbers at a place, and gives the place after it.
pub fn put_record(bytes: &mut [u8], at: usize, absent: Fields, fields: Fields) -> usize
    requires { at + length (record_of absent fields) ≤ length bytes.old }
    ensures { Wrote bytes.old bytes.new at result (record_of absent fields) }
{
    let first = put_map(bytes, at, absent, fields);
    let second = put_field(bytes, first, absent.first, fields.first);
    let third = put_field(bytes, second, absent.second, fields.second);
    put_field(bytes, third, absent.third, fields.third)
}
