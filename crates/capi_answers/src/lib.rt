// The answers of the calls for C and Rust as numbers, put to the front of a lent slice: specs/Places.antt has the order. A refusal has its
// number and detail, with all others 0. Stands on the crates whose answers these are.
#![tactic(auto)]

pub mod places;

ghost use Rattle.std.specs.Prelude.{◌≡◌, [], ◌∷◌, ◌≤◌, length};
ghost use Rattle.refusals.specs.Refusals.{checked_numbers};
ghost use Rattle.measure_intake.specs.Intake.{measured_numbers};
ghost use Rattle.buffer.specs.Wrote.{in_front};
ghost use Rattle.shotfile_reader.specs.Calls.{read_numbers};
ghost use Rattle.shotfile_writer.specs.Calls.{written_numbers};
ghost use Rattle.price_charging.specs.Charging.{priced_numbers};
ghost use Rattle.capi_answers.specs.Places.{index_places, measure_places, price_places, cover_places, part_places};

use crate::places::{
    AREA, AREA_CHARGE, CORNERS, COVERED, DETAIL, EDGE_CHARGE, EDGE_LENGTH, INNER_LENGTH, NUMBER,
    PART_END, PART_FIRST, READ_EDGE, READ_FIELD, READ_GRID, READ_SHOTS, SHOT, VOLUME,
    VOLUME_CHARGE, WRITE_BYTES,
};
use job::Stored;
use lattice_sums::sums::Totals;
use price_charging::Charges;
use refusals::{Refusal, notice_of};
use section::Places;

// ---- the numbers of an answer, put to the front

fn put_index(answer: &mut [u64], number: u8, detail: usize)
    requires { 2 ≤ length answer.old }
    ensures { answer.new ≡ in_front (number ∷ detail ∷ []) answer.old }
{
    answer[NUMBER] = u64::from(number);
    answer[DETAIL] = detail as u64;
}

fn put_named(answer: &mut [u64], covered: u64, shot: u32)
    requires { 2 ≤ length answer.old }
    ensures { answer.new ≡ in_front (covered ∷ shot ∷ []) answer.old }
{
    answer[COVERED] = covered;
    answer[SHOT] = u64::from(shot);
}

fn put_totals(answer: &mut [u64], number: u8, detail: usize, t: Totals)
    requires { 7 ≤ length answer.old }
    ensures { answer.new ≡ in_front (number ∷ detail ∷ t.volume ∷ t.area ∷ t.edge ∷ t.inner ∷ t.corners ∷ [])
        answer.old }
{
    answer[NUMBER] = u64::from(number);
    answer[DETAIL] = detail as u64;
    answer[VOLUME] = t.volume;
    answer[AREA] = t.area;
    answer[EDGE_LENGTH] = t.edge;
    answer[INNER_LENGTH] = t.inner;
    answer[CORNERS] = t.corners as u64;
}

fn put_list(answer: &mut [u64], number: u8, detail: usize, list: Stored)
    requires { 6 ≤ length answer.old }
    ensures { answer.new ≡ in_front (number ∷ detail ∷ list.field ∷ list.edge ∷ list.grid ∷ list.shots ∷ []) answer.old }
{
    answer[NUMBER] = u64::from(number);
    answer[DETAIL] = detail as u64;
    answer[READ_FIELD] = u64::from(list.field);
    answer[READ_EDGE] = u64::from(list.edge);
    answer[READ_GRID] = u64::from(list.grid);
    answer[READ_SHOTS] = list.shots as u64;
}

fn put_length(answer: &mut [u64], number: u8, detail: usize, bytes: usize)
    requires { 3 ≤ length answer.old }
    ensures { answer.new ≡ in_front (number ∷ detail ∷ bytes ∷ []) answer.old }
{
    answer[NUMBER] = u64::from(number);
    answer[DETAIL] = detail as u64;
    answer[WRITE_BYTES] = bytes as u64;
}

fn put_charges(answer: &mut [u64], number: u8, detail: usize, c: Charges)
    requires { 5 ≤ length answer.old }
    ensures { answer.new ≡ in_front (number ∷ detail ∷ c.volume ∷ c.area ∷ c.edge ∷ []) answer.old }
{
    answer[NUMBER] = u64::from(number);
    answer[DETAIL] = detail as u64;
    answer[VOLUME_CHARGE] = c.volume;
    answer[AREA_CHARGE] = c.area;
    answer[EDGE_CHARGE] = c.edge;
}

// ---- by the answer: a refusal has its number and detail, with all others 0

pub fn put_checked(answer: &mut [u64], checked: Result<(), Refusal>)
    requires { 2 ≤ length answer.old }
    ensures { answer.new ≡ in_front (index_places (checked_numbers checked)) answer.old }
{
    match checked {
        Ok(()) => put_index(answer, 0, 0),
        Err(r) => {
            let told = notice_of(r);
            put_index(answer, told.number, told.detail)
        }
    }
}

pub fn put_covering(answer: &mut [u64], covering: Option<u32>)
    requires { 2 ≤ length answer.old }
    ensures { answer.new ≡ in_front (cover_places covering) answer.old }
{
    match covering {
        Some(shot) => put_named(answer, 1, shot),
        None => put_named(answer, 0, 0),
    }
}

pub fn put_part(answer: &mut [u64], places: Places)
    requires { 4 ≤ length answer.old }
    ensures { answer.new ≡ in_front (part_places places) answer.old }
{
    answer[NUMBER] = 0;
    answer[DETAIL] = 0;
    answer[PART_FIRST] = places.first as u64;
    answer[PART_END] = places.end as u64;
}

pub fn put_measured(answer: &mut [u64], measured: Result<Totals, Refusal>)
    requires { 7 ≤ length answer.old }
    ensures { answer.new ≡ in_front (measure_places (measured_numbers measured)) answer.old }
{
    let none = Totals {
        volume: 0,
        area: 0,
        edge: 0,
        inner: 0,
        corners: 0,
    };
    match measured {
        Ok(t) => put_totals(answer, 0, 0, t),
        Err(r) => {
            let told = notice_of(r);
            put_totals(answer, told.number, told.detail, none)
        }
    }
}

pub fn put_priced(answer: &mut [u64], priced: Result<Charges, Refusal>)
    requires { 5 ≤ length answer.old }
    ensures { answer.new ≡ in_front (price_places (priced_numbers priced)) answer.old }
{
    let none = Charges {
        volume: 0,
        area: 0,
        edge: 0,
    };
    match priced {
        Ok(c) => put_charges(answer, 0, 0, c),
        Err(r) => {
            let told = notice_of(r);
            put_charges(answer, told.number, told.detail, none)
        }
    }
}

pub fn put_read(answer: &mut [u64], read: Result<Stored, Refusal>)
    requires { 6 ≤ length answer.old }
    ensures { answer.new ≡ in_front (read_numbers read) answer.old }
{
    let none = Stored {
        field: 0,
        edge: 0,
        grid: 0,
        shots: 0,
    };
    match read {
        Ok(list) => put_list(answer, 0, 0, list),
        Err(r) => {
            let told = notice_of(r);
            put_list(answer, told.number, told.detail, none)
        }
    }
}

pub fn put_written(answer: &mut [u64], written: Result<usize, Refusal>)
    requires { 3 ≤ length answer.old }
    ensures { answer.new ≡ in_front (written_numbers written) answer.old }
{
    match written {
        Ok(bytes) => put_length(answer, 0, 0, bytes),
        Err(r) => {
            let told = notice_of(r);
            put_length(answer, told.number, told.detail, 0)
        }
    }
}
