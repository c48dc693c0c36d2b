// Random lists from a fixed generator: each number is the one before times 48,271, modulo the prime 2^31 - 1 (Park and Miller).
// Shots repeat, touch and border more often than chance would have it.

use job::shot::{count, put, x_of, y_of, z_of};

// A list's settings: its field, edge and grid, another divisor of the field where there is one, and how many shots it has; and the last
// number drawn.
#[derive(Clone, Copy)]
pub(crate) struct Settings {
    pub(crate) field: u16,
    pub(crate) edge: u16,
    pub(crate) grid: u16,
    pub(crate) other: u16,
    pub(crate) shots: usize,
    pub(crate) drawn: usize,
}

// The number after `state`.
fn next(state: usize) -> usize {
    state % 2147483647 * 48271 % 2147483647
}

// The part of a number that is used, without its last bits.
fn small(state: usize) -> u16 {
    (state / 8 % 65536) as u16
}

// A number from 1 to `most`; 1 where `most` is 0.
fn one_to(most: u16, state: usize) -> u16 {
    if most == 0 {
        return 1;
    }
    let above = small(state) % most;
    if above < most {
        return above + 1;
    }
    1
}

// Fields with many divisors.
fn larger_field(state: usize) -> u16 {
    let which = state / 8 % 4;
    match which {
        0 => 16,
        1 => 18,
        2 => 20,
        _ => 24,
    }
}

// Fields are mostly small, since counting cell by cell is slow.
fn draw_field(number: usize, state: usize) -> u16 {
    if number % 256 == 255 {
        return 64;
    }
    if number % 16 == 15 {
        return larger_field(state);
    }
    one_to(12, state)
}

// Half of the edges are at most a third of the field.
fn draw_edge(field: u16, state: usize) -> u16 {
    if state / 4 % 2 == 0 {
        return one_to(field / 3, state);
    }
    one_to(field, state)
}

// At most 12 shots, and at most 60 in every sixteenth list.
fn draw_count(number: usize, state: usize) -> usize {
    if number % 16 == 7 {
        return state / 8 % 61;
    }
    state / 8 % 13
}

// The largest divisor of the field that is at most `most`.
fn divisor(field: u16, most: u16) -> u16 {
    for grid in (2..=most).rev() {
        if field % grid == 0 {
            return grid;
        }
    }
    1
}

// Another divisor of the field, where it has one up to `most`.
fn other_divisor(field: u16, most: u16, grid: u16, fresh: u16) -> u16 {
    if fresh != grid {
        return fresh;
    }
    if grid == 1 {
        return divisor(field, most);
    }
    1
}

// The largest grid for a number of shots that the work slice has room for, whatever their edges are.
fn most_grid(shots: usize) -> u16 {
    if shots <= 10 {
        return 14;
    }
    8
}

// The settings of list number so and so. Each list starts the generator anew, so that it can be drawn alone.
pub(crate) fn draw_settings(number: usize) -> Settings {
    let state = next(next(next(number % 1000000 + 1)));
    let second = next(state);
    let third = next(second);
    let fourth = next(third);
    let fifth = next(fourth);
    let field = draw_field(number, state);
    let shots = draw_count(number, third);
    let most = most_grid(shots);
    let grid = divisor(field, one_to(most, fourth));
    let fresh = divisor(field, one_to(most, fifth));
    Settings {
        field,
        edge: draw_edge(field, second),
        grid,
        other: other_divisor(field, most, grid, fresh),
        shots,
        drawn: fifth,
    }
}

// The last place of a shot on an axis.
fn span(settings: Settings) -> u16 {
    settings.field.saturating_sub(settings.edge)
}

// A place one edge beside an earlier one, or that place where the field ends before: the cubes touch.
fn beside(state: usize, span: u16, edge: u16, earlier: u16) -> u16 {
    let way = state / 8 % 3;
    let moved = match way {
        1 => earlier.checked_add(edge).filter(|&place| place <= span),
        2 => earlier.checked_sub(edge),
        _ => None,
    };
    moved.unwrap_or(earlier)
}

// A place from 0 to `span`.
fn anywhere(state: usize, span: u16) -> u16 {
    let place = small(state);
    if span < 65535 {
        return place % (span + 1);
    }
    place
}

// The first place or the last.
fn border(state: usize, span: u16) -> u16 {
    if state / 8 % 2 == 0 {
        return 0;
    }
    span
}

// A place that is a multiple of the edge.
fn multiple(state: usize, span: u16, edge: u16) -> u16 {
    let place = anywhere(state, span);
    if edge == 0 {
        return place;
    }
    let rest = place % edge;
    if rest <= place {
        return place - rest;
    }
    place
}

// Where a shot lies: at an earlier one, beside it, at multiples of the edge, at borders of the field, or anywhere.
#[derive(Clone, Copy)]
enum Kind {
    Earlier,
    Beside,
    Multiple,
    Border,
    Anywhere,
}

// A coordinate of a shot of a kind.
fn coordinate(kind: Kind, state: usize, span: u16, edge: u16, earlier: u16) -> u16 {
    match kind {
        Kind::Earlier => earlier,
        Kind::Beside => beside(state, span, edge, earlier),
        Kind::Multiple => multiple(state, span, edge),
        Kind::Border => border(state, span),
        Kind::Anywhere => anywhere(state, span),
    }
}

// The kind of a shot, some more often than others; the first has no earlier one.
fn draw_kind(shot: usize, state: usize) -> Kind {
    let drawn = if shot == 0 {
        5 + state / 8 % 7
    } else {
        state / 8 % 12
    };
    match drawn {
        0 => Kind::Earlier,
        1..=4 => Kind::Beside,
        5..=6 => Kind::Multiple,
        7 => Kind::Border,
        _ => Kind::Anywhere,
    }
}

// An earlier shot, or the first itself.
fn draw_earlier(shot: usize, state: usize) -> usize {
    if shot == 0 {
        return 0;
    }
    state / 8 % shot
}

// The three coordinates of a shot of a list, 0 past the last shot.
fn at(coords: &[u16], shot: usize) -> (u16, u16, u16) {
    if count(coords) <= shot {
        return (0, 0, 0);
    }
    (x_of(coords, shot), y_of(coords, shot), z_of(coords, shot))
}

// Stores a shot, if there is a place for it.
fn store(coords: &mut [u16], shot: usize, x: u16, y: u16, z: u16) {
    if shot < count(coords) {
        put(coords, shot, x, y, z);
    }
}

// Draws a shot by five numbers after `state`, and gives the last.
fn draw_shot(state: usize, span: u16, edge: u16, coords: &mut [u16], shot: usize) -> usize {
    let first = next(state);
    let second = next(first);
    let third = next(second);
    let fourth = next(third);
    let fifth = next(fourth);
    let kind = draw_kind(shot, first);
    let earlier = draw_earlier(shot, second);
    let (near_x, near_y, near_z) = at(coords, earlier);
    let x = coordinate(kind, third, span, edge, near_x);
    let y = coordinate(kind, fourth, span, edge, near_y);
    let z = coordinate(kind, fifth, span, edge, near_z);
    store(coords, shot, x, y, z);
    fifth
}

// Fills a slice with shots.
pub(crate) fn draw_shots(settings: Settings, coords: &mut [u16]) {
    let last = span(settings);
    let shots = count(coords);
    let mut state = settings.drawn;
    for shot in 0..shots {
        state = draw_shot(state, last, settings.edge, coords, shot);
    }
}
