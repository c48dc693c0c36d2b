// The unit edges at a lattice point, and the corner test, from the pattern byte: docs/SCOPE.md, 'Cells and totals' and
// 'Corner points'. specs/UnitEdges.antt has the four cells about a unit edge. Stands on `lattice`.
#![tactic(auto)]

ghost use Rattle.std.specs.Prelude.{◌≡◌, Bool, false, ℕ, ◌<◌};
ghost use Rattle.std.specs.Int.Bits.{bit_and};
ghost use Rattle.std.specs.Int.Count.{ones};
ghost use Rattle.lattice.specs.Cells.{covered, edge, inner_edge};
ghost use Rattle.lattice.specs.Pattern.{of_byte, corner};
ghost use Rattle.lattice_edges.specs.UnitEdges.{four_about};

// The six unit edges at a lattice point: on each axis the one below it and the one above.
#[derive(Clone, Copy, Debug, PartialEq, Eq)]
pub enum UnitEdge {
    BelowX,
    AboveX,
    BelowY,
    AboveY,
    BelowZ,
    AboveZ,
}

impl UnitEdge {
    // The bits of the pattern byte that are the four cells about the unit edge.
    fn mask(self) -> u8
        ensures { (p : ℕ) → p < 256 → ones (bit_and p result) ≡ covered (four_about self (of_byte p)) }
    {
        match self {
            UnitEdge::BelowX => 0x0f,
            UnitEdge::AboveX => 0xf0,
            UnitEdge::BelowY => 0x33,
            UnitEdge::AboveY => 0xcc,
            UnitEdge::BelowZ => 0x55,
            UnitEdge::AboveZ => 0xaa,
        }
    }

    // Those four cells of pattern p as the low four bits.
    fn low_four(self, p: u8) -> u8
        ensures { (b c : Bool) → of_byte result false b c ≡ four_about self (of_byte p) b c }
    {
        match self {
            UnitEdge::BelowX => p % 16,
            UnitEdge::AboveX => p / 16,
            UnitEdge::BelowY => p % 4 + 4 * (p / 16 % 4),
            UnitEdge::AboveY => p / 4 % 4 + 4 * (p / 64),
            UnitEdge::BelowZ => p % 2 + 2 * (p / 4 % 2) + 4 * (p / 16 % 2) + 8 * (p / 64 % 2),
            UnitEdge::AboveZ => p / 2 % 2 + 2 * (p / 8 % 2) + 4 * (p / 32 % 2) + 8 * (p / 128),
        }
    }

    // How many of the four cells about the unit edge are covered, at a point of pattern p.
    fn covered(self, p: u8) -> u32
        ensures { result ≡ covered (four_about self (of_byte p)) }
    {
        (p & self.mask()).count_ones()
    }
}

// What a unit edge counts as an outer one, by which of the four cells about it are covered: the low four bits of q, where 1 and 8, and
// 2 and 4, share only the edge.
pub fn edge_of_four(q: u8) -> u8
    ensures { result ≡ edge (λ b c. of_byte q false b c) }
{
    // Kept so: an arm for each of the sixteen ways, as docs/SCOPE.md asks, 'The shape each place takes'; tried: slower with `1 | 2 | 4 | 8`,
    // which becomes tests one after the other.
    match q % 16 {
        0 => 0,
        1 => 1,
        2 => 1,
        3 => 0,
        4 => 1,
        5 => 0,
        6 => 2,
        7 => 0,
        8 => 1,
        9 => 2,
        10 => 0,
        11 => 0,
        12 => 0,
        13 => 0,
        14 => 0,
        _ => 0,
    }
}

// What a unit edge at a point of pattern p counts as an outer one: how many of its four cells are covered selects, and for two of them
// which they are.
pub fn unit_edge(p: u8, e: UnitEdge) -> u8
    ensures { result ≡ edge (four_about e (of_byte p)) }
{
    match e.covered(p) {
        1 => 1,
        2 => edge_of_four(e.low_four(p)),
        _ => 0,
    }
}

// What a unit edge at a point of pattern p counts as an inner one: 1 if three of its four cells are covered.
pub fn unit_inner(p: u8, e: UnitEdge) -> u8
    ensures { result ≡ inner_edge (four_about e (of_byte p)) }
{
    match e.covered(p) {
        3 => 1,
        _ => 0,
    }
}

// Whether a point of pattern p is a corner point: the pattern changes across every axis.
pub fn is_corner(p: u8) -> bool
    ensures { result ≡ corner (of_byte p) }
{
    p / 16 != p % 16 && (p ^ p / 4) & 0x33 != 0 && (p ^ p / 2) & 0x55 != 0
}
