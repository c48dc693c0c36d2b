// Carving a block of unit cells by the shots of a run: each cell is credited to the first shot of the run that covers it, without asking
// cell by cell. The first shot that meets the block gets its part of it; what is left of the block is at most six blocks, and each is carved
// by the shots after that one.
//
// specs/Blocks.antt says what is counted; proofs/BlockLaws.antt, that a block's count is that of a block in it and of the six parts around that.
// Stands on `grid_cover`, whose cover test it counts by, and on `job` and `lattice`.
#![tactic(auto)]

pub mod blocks;

ghost use Rattle.std.specs.Prelude.{◌≡◌, ◌≤◌, ◌<◌, length, unwrap_or, IfSome};
ghost use Rattle.std.specs.List.{position};
ghost use Rattle.job.specs.Job.{shot_count};
ghost use Rattle.crediting_carving.specs.Blocks.{Meets, meets_block, FirstMeeting, shared_block, size_of, Small, added, only, RoomFor, credits_in};

use crate::blocks::{Block, SIDES};

// The place of the first shot of a run that meets a block, whether that has cells or not.
fn first_met(coords: &[u16], edge: u16, run: &[u32], block: Block) -> Option<usize>
    ensures { result ≡ position (λ s. meets_block edge coords.now s block) run.now }
{
    run.iter()
        .position(|&shot| block.is_met(coords, edge, shot))
}

// The place of the first shot of a run that meets a block; a block without cells is met by none.
fn first_meeting(coords: &[u16], edge: u16, run: &[u32], block: Block) -> Option<usize>
    ensures place { FirstMeeting edge coords.now run.now block (unwrap_or result (length run.now)) }
    ensures in_run { IfSome result (λ n. n < length run.now) }
{
    if block.is_empty() {
        return None;
    }
    first_met(coords, edge, run, block)
}

// Credits a shot with so many cells more.
fn add(credits: &mut [u32], shot: u32, cells: u32)
    requires shot_in_bounds { shot < length credits.old }
    requires room_for { RoomFor cells credits.old }
    ensures { credits.new ≡ added credits.old (only shot cells) }
{
    credits[shot as usize] += cells;
}

// Credits a shot that meets a block with the cells that it covers of it, and gives the block of these.
fn credit_shared(coords: &[u16], edge: u16, shot: u32, block: Block, credits: &mut [u32]) -> Block
    requires meets { Meets edge coords.now shot block }
    requires small { Small block }
    requires coords_in_bounds { shot_count coords.now ≤ length credits.old }
    requires room_for { RoomFor (size_of block) credits.old }
    ensures value { result ≡ shared_block edge coords.now shot block }
    ensures credits_after { credits.new ≡ added credits.old
        (only shot (size_of (shared_block edge coords.now shot block))) }
{
    let core = block.shared(coords, edge, shot);
    add(credits, shot, core.size());
    core
}

// Credits each cell of a block to the first shot of the run that covers it. It calls itself for the six parts around what the first shot
// that meets the block covers, with the shots after that one. So the calls nest no deeper than the run has shots; nor, since a part that has
// cells lacks a layer of the block, than the block has layers on its three axes together.
pub fn carve(coords: &[u16], edge: u16, run: &[u32], block: Block, credits: &mut [u32])
    requires small { Small block }
    requires coords_in_bounds { shot_count coords.now ≤ length credits.old }
    requires room_for { RoomFor (size_of block) credits.old }
    ensures { credits.new ≡ added credits.old (credits_in edge coords.now run.now block) }
{
    let Some(place) = first_meeting(coords, edge, run, block) else {
        return;
    };
    let core = credit_shared(coords, edge, run[place], block, credits);
    let rest = &run[place + 1..];
    for side in SIDES {
        carve(coords, edge, rest, block.part(core, side), credits);
    }
}
