// The calls for C and Rust: numbers and slices only. include/heqdanu.h describes them for their users.
// Each answer goes, as numbers, into a lent slice whose length is checked: specs/Answered.antt. Stands on `capi_answers`, which puts the
// numbers, and on `measure`, `measure_cells`, `section`, `crediting`, `price`, `grid_cover`, `shotfile_reader`, `shotfile_writer` and `vox`.
#![tactic(auto)]

ghost use Rattle.job.specs.Job.{job_of};
ghost use Rattle.capi.specs.Answered.{IndexTold, MeasureTold, ListTold, CornersAtTold, CreditTold, PriceTold, CoversTold, ReadTold, VoxTold, WriteTold};

use capi_answers::places::{
    CORNERS_AT_ANSWER, COVERS_ANSWER, CREDIT_ANSWER, INDEX_ANSWER, MEASURE_ANSWER, PRICE_ANSWER,
    READ_ANSWER, WRITE_ANSWER,
};
use job::Job;
use price_bands::Band;

// Checks a list and puts its index into the work slice: see `measure_intake::indexed`.
#[unsafe(no_mangle)]
pub extern "C" fn heqdanu_index(
    field: u16,
    edge: u16,
    grid: u16,
    coords: &[u16],
    work: &mut [u32],
    answer: &mut [u64],
) -> u8
    ensures { IndexTold (job_of field edge grid coords.now) work.old answer.old
        result work.new answer.new }
{
    if answer.len() < INDEX_ANSWER {
        return 0;
    }
    let job = Job {
        field,
        edge,
        grid,
        coords,
    };
    let checked = measure_intake::indexed(job, work);
    capi_answers::put_checked(answer, checked);
    1
}

// Measures a list: see `measure::measure`.
#[unsafe(no_mangle)]
pub extern "C" fn heqdanu_measure(
    field: u16,
    edge: u16,
    grid: u16,
    coords: &[u16],
    work: &mut [u32],
    answer: &mut [u64],
) -> u8
    ensures { MeasureTold (job_of field edge grid coords.now) work.old answer.old
        result work.new answer.new }
{
    if answer.len() < MEASURE_ANSWER {
        return 0;
    }
    let job = Job {
        field,
        edge,
        grid,
        coords,
    };
    let measured = measure::measure(job, work);
    capi_answers::put_measured(answer, measured);
    1
}

// Measures a list and lists its corners: see `measure::list`. The numbers as in measuring.
#[unsafe(no_mangle)]
pub extern "C" fn heqdanu_list(
    field: u16,
    edge: u16,
    grid: u16,
    coords: &[u16],
    work: &mut [u32],
    listing: &mut [u8],
    answer: &mut [u64],
) -> u8
    ensures { ListTold (job_of field edge grid coords.now) work.old listing.old answer.old
        result work.new listing.new answer.new }
{
    if answer.len() < MEASURE_ANSWER {
        return 0;
    }
    let job = Job {
        field,
        edge,
        grid,
        coords,
    };
    let measured = measure::list(job, work, listing);
    capi_answers::put_measured(answer, measured);
    1
}

// Finds the part of a listing that holds the corners of one x: see `section::places_of`.
#[unsafe(no_mangle)]
pub extern "C" fn heqdanu_corners_at(listing: &[u8], x: u16, answer: &mut [u64]) -> u8
    ensures { CornersAtTold listing.now x answer.old result answer.new }
{
    if answer.len() < CORNERS_AT_ANSWER {
        return 0;
    }
    let places = section::places_of(listing, x);
    capi_answers::put_part(answer, places);
    1
}

// Counts a list again, cell by cell: see `measure_cells::recount`. The numbers as in measuring.
#[unsafe(no_mangle)]
pub extern "C" fn heqdanu_recount(
    field: u16,
    edge: u16,
    grid: u16,
    coords: &[u16],
    work: &mut [u32],
    answer: &mut [u64],
) -> u8
    ensures { MeasureTold (job_of field edge grid coords.now) work.old answer.old
        result work.new answer.new }
{
    if answer.len() < MEASURE_ANSWER {
        return 0;
    }
    let job = Job {
        field,
        edge,
        grid,
        coords,
    };
    let again = measure_cells::recount(job, work);
    capi_answers::put_measured(answer, again);
    1
}

// Credits the cells that a list covers to its shots: see `crediting::credit`.
#[unsafe(no_mangle)]
pub extern "C" fn heqdanu_credit(
    field: u16,
    edge: u16,
    grid: u16,
    coords: &[u16],
    work: &mut [u32],
    credits: &mut [u32],
    answer: &mut [u64],
) -> u8
    ensures { CreditTold (job_of field edge grid coords.now) work.old credits.old
        answer.old result work.new credits.new answer.new }
{
    if answer.len() < CREDIT_ANSWER {
        return 0;
    }
    let job = Job {
        field,
        edge,
        grid,
        coords,
    };
    let checked = crediting::credit(job, work, credits);
    capi_answers::put_checked(answer, checked);
    1
}

// Prices a list by three tables of bands: see `price::price`.
#[unsafe(no_mangle)]
pub extern "C" fn heqdanu_price(
    field: u16,
    edge: u16,
    grid: u16,
    coords: &[u16],
    work: &mut [u32],
    volume: &[Band],
    area: &[Band],
    edges: &[Band],
    answer: &mut [u64],
) -> u8
    ensures { PriceTold (job_of field edge grid coords.now) work.old
        (record { volume = volume.now; area = area.now; edges = edges.now }) answer.old
        result work.new answer.new }
{
    if answer.len() < PRICE_ANSWER {
        return 0;
    }
    let job = Job {
        field,
        edge,
        grid,
        coords,
    };
    let priced = price::price(job, work, volume, area, edges);
    capi_answers::put_priced(answer, priced);
    1
}

// Names the first shot of a run that covers the cell (i, j, k): see `grid_cover::first_covering`. 1 and the shot, or 0 and 0.
#[unsafe(no_mangle)]
pub extern "C" fn heqdanu_covers(
    edge: u16,
    coords: &[u16],
    run: &[u32],
    i: u16,
    j: u16,
    k: u16,
    answer: &mut [u64],
) -> u8
    ensures { CoversTold edge coords.now run.now i j k answer.old result answer.new }
{
    if answer.len() < COVERS_ANSWER {
        return 0;
    }
    let covering = grid_cover::first_covering(coords, edge, run, i, j, k);
    capi_answers::put_covering(answer, covering);
    1
}

// Reads a shot file: see `shotfile_reader::read`.
#[unsafe(no_mangle)]
pub extern "C" fn heqdanu_read(bytes: &[u8], coords: &mut [u16], answer: &mut [u64]) -> u8
    ensures { ReadTold bytes.now coords.old answer.old
        result coords.new answer.new }
{
    if answer.len() < READ_ANSWER {
        return 0;
    }
    let read = shotfile_reader::read(bytes, coords);
    capi_answers::put_read(answer, read);
    1
}

// Reads a VOX file: see `vox::read_vox`. The numbers as in reading a shot file.
#[unsafe(no_mangle)]
pub extern "C" fn heqdanu_read_vox(bytes: &[u8], coords: &mut [u16], answer: &mut [u64]) -> u8
    ensures { VoxTold bytes.now coords.old answer.old
        result coords.new answer.new }
{
    if answer.len() < READ_ANSWER {
        return 0;
    }
    let read = vox::read_vox(bytes, coords);
    capi_answers::put_read(answer, read);
    1
}

// Writes a list as a shot file: see `shotfile_writer::write`.
#[unsafe(no_mangle)]
pub extern "C" fn heqdanu_write(
    field: u16,
    edge: u16,
    grid: u16,
    coords: &[u16],
    bytes: &mut [u8],
    answer: &mut [u64],
) -> u8
    ensures { WriteTold (job_of field edge grid coords.now) bytes.old answer.old
        result bytes.new answer.new }
{
    if answer.len() < WRITE_ANSWER {
        return 0;
    }
    let job = Job {
        field,
        edge,
        grid,
        coords,
    };
    let written = shotfile_writer::write(job, bytes);
    capi_answers::put_written(answer, written);
    1
}
