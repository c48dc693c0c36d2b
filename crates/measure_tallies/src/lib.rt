// What one lattice point counts, from its pattern byte: specs/Tallies.antt. Stands on `lattice`, `lattice_edges` and `lattice_sums`.
#![tactic(auto)]

ghost use Rattle.std.specs.Prelude.{◌≡◌, ℕ, ◌+◌};
ghost use Rattle.lattice.specs.Pattern.{of_byte};
ghost use Rattle.lattice_edges.specs.declared.UnitEdge.TheVariants.{AboveX, AboveY, AboveZ};
ghost use Rattle.measure_tallies.specs.Tallies.{at_pattern, plus, AtMost, before_point};

use lattice_edges::{UnitEdge, is_corner, unit_edge, unit_inner};
use lattice_sums::sums::Totals;

// The three unit squares above a point of pattern p: one counts if one of its two cells is covered.
fn squares(p: u8) -> u64
    ensures { result ≡ (at_pattern (of_byte p)).area }
{
    let cell = p / 128;
    u64::from(p / 8 % 2 != cell) + u64::from(p / 32 % 2 != cell) + u64::from(p / 64 % 2 != cell)
}

// What the three unit edges above a point count together.
fn edges_above<F: Fn(UnitEdge) -> u8>(count: F) -> u64
    requires { F.IsAlwaysCallable count }
    ensures { (x : ℕ) × (y : ℕ) × (z : ℕ) × F.post count AboveX x × F.post count AboveY y × F.post count AboveZ z × (result ≡ x + y + z) }
{
    u64::from(count(UnitEdge::AboveX))
        + u64::from(count(UnitEdge::AboveY))
        + u64::from(count(UnitEdge::AboveZ))
}

// The figures with those of a point of pattern p: nothing where no cell about it is covered, and one cell where all are.
pub fn tally(t: Totals, p: u8) -> Totals
    requires { AtMost before_point t }
    ensures { result ≡ plus t (at_pattern (of_byte p)) }
{
    match p {
        0 => t,
        255 => Totals {
            volume: t.volume + 1,
            ..t
        },
        _ => Totals {
            volume: t.volume + u64::from(p / 128),
            area: t.area + squares(p),
            edge: t.edge + edges_above(|e| unit_edge(p, e)),
            inner: t.inner + edges_above(|e| unit_inner(p, e)),
            corners: t.corners + usize::from(is_corner(p)),
        },
    }
}
