// Words of 64 cells of a row along z: the places between two bounds as bits of a word, the bits of a word one after the other, and
// the corner points and the patterns of four words about a line. Stands on `lattice`.
//
// `k` is a column of 63 places, of which a word has one more; `l0` and `l1` are the words of rows y and y + 1 of the lower layer, `u0` and `u1`
// those of the upper; `m` is a word of bits that are still to be looked at, and a word *turns* where its two cells at a point differ.
#![tactic(auto)]

ghost use Rattle.std.specs.Prelude.{◌≡◌, ◌&&◌, ◌||◌, ℕ, suc, ◌+◌, ◌*◌, ◌^◌, ◌<◌, ◌≤◌, ltb, leb};
ghost use Rattle.lattice.specs.Pattern.{byte, corner};
ghost use Rattle.sweep_words.specs.Words.{bit_at, pattern_of, two_at, Lowest, WithoutLowest, pairs_differ, turns_at};

// The lowest set bit.
pub fn lowest(m: u64) -> usize
    requires { 0 < m }
    ensures { Lowest m result }
{
    m.trailing_zeros() as usize
}

// The word without its lowest set bit.
pub fn without_lowest(m: u64) -> u64
    requires { 0 < m }
    ensures { WithoutLowest m result }
{
    m & (m - 1)
}

// The word with bit k alone.
pub fn bit(k: usize) -> u64
    requires { k < 64 }
    ensures { result ≡ 2 ^ k }
{
    1 << k
}

// Bits a to 63.
fn upper(a: usize) -> u64
    requires { a < 64 }
    ensures { (i : ℕ) → i < 64 → bit_at result i ≡ leb a i }
{
    u64::MAX << a
}

// Bits 0 to b.
fn lower(b: usize) -> u64
    requires { b < 64 }
    ensures { (i : ℕ) → bit_at result i ≡ leb i b }
{
    u64::MAX >> (63 - b)
}

// The places of column k after a.
fn after(k: usize, a: usize) -> u64
    requires { (k ≤ 16) × (a < 63 * k + 63) }
    ensures { (i : ℕ) → i < 64 → bit_at result i ≡ ltb a (63 * k + i) }
{
    upper((a + 1).saturating_sub(63 * k))
}

// The places of column k up to b.
fn up_to(k: usize, b: usize) -> u64
    requires { (k ≤ 16) × (63 * k ≤ b) }
    ensures { (i : ℕ) → i < 64 → bit_at result i ≡ leb (63 * k + i) b }
{
    lower((b - 63 * k).min(63))
}

// The places of column k after a and up to b.
pub fn interval(k: usize, a: usize, b: usize) -> u64
    requires { (k ≤ 16) × (a < 63 * k + 63) × (63 * k ≤ b) }
    ensures { (i : ℕ) → i < 64 → bit_at result i ≡ (ltb a (63 * k + i) && leb (63 * k + i) b) }
{
    after(k, a) & up_to(k, b)
}

// The points where a and b, or c and d, differ in one of the two cells: for the right pairs, where the pattern changes across x or y.
fn across(a: u64, b: u64, c: u64, d: u64) -> u64
    ensures { (i : ℕ) → bit_at result i ≡ (pairs_differ a b c d i || pairs_differ a b c d (suc i)) }
{
    let x = (a ^ b) | (c ^ d);
    x | (x >> 1)
}

// The points where the two cells of a word differ.
fn turns(w: u64) -> u64
    ensures { (i : ℕ) → bit_at result i ≡ turns_at w i }
{
    w ^ (w >> 1)
}

// The points where the two cells of one of four words differ: where the pattern changes across z.
fn along(a: u64, b: u64, c: u64, d: u64) -> u64
    ensures { (i : ℕ) → bit_at result i ≡ ((turns_at a i || turns_at b i) || (turns_at c i || turns_at d i)) }
{
    (turns(a) | turns(b)) | (turns(c) | turns(d))
}

// The corner points among the 63 points of four words: l0 and l1 are rows y and y + 1 of the lower layer, u0 and u1 of the upper.
pub fn corner_places(l0: u64, l1: u64, u0: u64, u1: u64) -> u64
    ensures { (b : ℕ) → bit_at result b ≡ (ltb b 63 && corner (pattern_of l0 l1 u0 u1 b)) }
{
    let x = across(l0, u0, l1, u1);
    let y = across(l0, l1, u0, u1);
    let z = along(l0, l1, u0, u1);
    (x & (y & z)) & 0x7fffffffffffffff
}

// The two cells at place b of a word.
fn two(w: u64, b: usize) -> u64
    requires { b < 63 }
    ensures { (result ≡ two_at w b) × (result ≤ 3) }
{
    (w >> b) % 4
}

// The pattern of point b.
pub fn pattern(l0: u64, l1: u64, u0: u64, u1: u64, b: usize) -> u8
    requires { b < 63 }
    ensures { result ≡ byte (pattern_of l0 l1 u0 u1 b) }
{
    (two(l0, b) + 4 * two(l1, b) + 16 * two(u0, b) + 64 * two(u1, b)) as u8
}
