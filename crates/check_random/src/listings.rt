// Answers and listings compared.
use lattice_sums::sums::Totals;
use refusals::Refusal;

// Two lists were accepted, and their figures are the same.
pub(crate) fn agree(a: Result<Totals, Refusal>, b: Result<Totals, Refusal>) -> bool {
    a.is_ok() && a == b
}

// Two listings of so many corners are the same at every place.
fn same_records(a: &[u8], b: &[u8], corners: usize) -> bool {
    if a.len() / 7 < corners || b.len() / 7 < corners {
        return false;
    }
    let bytes = 7 * corners;
    a[..bytes] == b[..bytes]
}

// Two lists were accepted, and their listings are the same: equally many bytes, and the same at every place.
pub(crate) fn same(
    a: Result<Totals, Refusal>,
    first: &[u8],
    b: Result<Totals, Refusal>,
    second: &[u8],
) -> bool {
    let (Ok(one), Ok(two)) = (a, b) else {
        return false;
    };
    one.corners == two.corners && same_records(first, second, one.corners)
}
