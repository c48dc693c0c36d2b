// The static library for C: include/heqdanu.h describes its exports. Each calls the function of its name in `capi`, which has its promise
// and its proof, and promises the same. Stands on `capi`; its promises also name `job`, and its tables `price_bands`.
#![tactic(auto)]

ghost use Rattle.job.specs.Job.{job_of};
ghost use Rattle.capi.specs.Answered.{IndexTold, MeasureTold, ListTold, CornersAtTold, CreditTold, PriceTold, CoversTold, ReadTold, VoxTold, WriteTold};

use price_bands::Band;

// Checks a list and puts its index into the work slice: see `capi::heqdanu_index`.
#[unsafe(no_mangle)]
pub extern "C" fn heqdanu_index(
    field: u16,
    edge: u16,
    grid: u16,
    coords: &[u16],
    work: &mut [u32],
    answer: &mut [u64],
) -> u8
    ensures { IndexTold (job_of field edge grid coords.now) work.old answer.old
        result work.new answer.new }
{
    capi::heqdanu_index(field, edge, grid, coords, work, answer)
}

// Measures a list: see `capi::heqdanu_measure`.
#[unsafe(no_mangle)]
pub extern "C" fn heqdanu_measure(
    field: u16,
    edge: u16,
    grid: u16,
    coords: &[u16],
    work: &mut [u32],
    answer: &mut [u64],
) -> u8
    ensures { MeasureTold (job_of field edge grid coords.now) work.old answer.old
        result work.new answer.new }
{
    capi::heqdanu_measure(field, edge, grid, coords, work, answer)
}

// Measures a list and lists its corners: see `capi::heqdanu_list`. The numbers as in measuring.
#[unsafe(no_mangle)]
pub extern "C" fn heqdanu_list(
    field: u16,
    edge: u16,
    grid: u16,
    coords: &[u16],
    work: &mut [u32],
    listing: &mut [u8],
    answer: &mut [u64],
) -> u8
    ensures { ListTold (job_of field edge grid coords.now) work.old listing.old answer.old
        result work.new listing.new answer.new }
{
    capi::heqdanu_list(field, edge, grid, coords, work, listing, answer)
}

// Finds the part of a listing that holds the corners of one x: see `capi::heqdanu_corners_at`.
#[unsafe(no_mangle)]
pub extern "C" fn heqdanu_corners_at(listing: &[u8], x: u16, answer: &mut [u64]) -> u8
    ensures { CornersAtTold listing.now x answer.old result answer.new }
{
    capi::heqdanu_corners_at(listing, x, answer)
}

// Counts a list again, cell by cell: see `capi::heqdanu_recount`. The numbers as in measuring.
#[unsafe(no_mangle)]
pub extern "C" fn heqdanu_recount(
    field: u16,
    edge: u16,
    grid: u16,
    coords: &[u16],
    work: &mut [u32],
    answer: &mut [u64],
) -> u8
    ensures { MeasureTold (job_of field edge grid coords.now) work.old answer.old
        result work.new answer.new }
{
    capi::heqdanu_recount(field, edge, grid, coords, work, answer)
}

// Credits the cells that a list covers to its shots: see `capi::heqdanu_credit`.
#[unsafe(no_mangle)]
pub extern "C" fn heqdanu_credit(
    field: u16,
    edge: u16,
    grid: u16,
    coords: &[u16],
    work: &mut [u32],
    credits: &mut [u32],
    answer: &mut [u64],
) -> u8
    ensures { CreditTold (job_of field edge grid coords.now) work.old credits.old
        answer.old result work.new credits.new answer.new }
{
    capi::heqdanu_credit(field, edge, grid, coords, work, credits, answer)
}

// Prices a list by three tables of bands: see `capi::heqdanu_price`.
#[unsafe(no_mangle)]
pub extern "C" fn heqdanu_price(
    field: u16,
    edge: u16,
    grid: u16,
    coords: &[u16],
    work: &mut [u32],
    volume: &[Band],
    area: &[Band],
    edges: &[Band],
    answer: &mut [u64],
) -> u8
    ensures { PriceTold (job_of field edge grid coords.now) work.old
        (record { volume = volume.now; area = area.now; edges = edges.now }) answer.old
        result work.new answer.new }
{
    capi::heqdanu_price(field, edge, grid, coords, work, volume, area, edges, answer)
}

// Names the first shot of a run that covers the cell (i, j, k): see `capi::heqdanu_covers`. 1 and the shot, or 0 and 0.
#[unsafe(no_mangle)]
pub extern "C" fn heqdanu_covers(
    edge: u16,
    coords: &[u16],
    run: &[u32],
    i: u16,
    j: u16,
    k: u16,
    answer: &mut [u64],
) -> u8
    ensures { CoversTold edge coords.now run.now i j k answer.old result answer.new }
{
    capi::heqdanu_covers(edge, coords, run, i, j, k, answer)
}

// Reads a shot file: see `capi::heqdanu_read`.
#[unsafe(no_mangle)]
pub extern "C" fn heqdanu_read(bytes: &[u8], coords: &mut [u16], answer: &mut [u64]) -> u8
    ensures { ReadTold bytes.now coords.old answer.old
        result coords.new answer.new }
{
    capi::heqdanu_read(bytes, coords, answer)
}

// Reads a VOX file: see `capi::heqdanu_read_vox`. The numbers as in reading a shot file.
#[unsafe(no_mangle)]
pub extern "C" fn heqdanu_read_vox(bytes: &[u8], coords: &mut [u16], answer: &mut [u64]) -> u8
    ensures { VoxTold bytes.now coords.old answer.old
        result coords.new answer.new }
{
    capi::heqdanu_read_vox(bytes, coords, answer)
}

// Writes a list as a shot file: see `capi::heqdanu_write`.
#[unsafe(no_mangle)]
pub extern "C" fn heqdanu_write(
    field: u16,
    edge: u16,
    grid: u16,
    coords: &[u16],
    bytes: &mut [u8],
    answer: &mut [u64],
) -> u8
    ensures { WriteTold (job_of field edge grid coords.now) bytes.old answer.old
        result bytes.new answer.new }
{
    capi::heqdanu_write(field, edge, grid, coords, bytes, answer)
}
