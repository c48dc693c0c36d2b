// Blocks of unit cells: which shots meet one, the part of one that a shot covers, and the six parts around that.
ghost use Rattle.std.specs.Prelude.{◌≡◌, ◌-◌, ◌≤◌, ◌<◌};
ghost use Rattle.job.specs.Job.{shot_count};
ghost use Rattle.crediting_carving.specs.Blocks.{empty_span, empty_block, meets_span, meets_block, shared_span, shared_block, size_of, Small, Ordered, span_before, span_after, place_of, part_of};

use job::shot;

// The cells of an axis from one on and before another.
#[derive(Clone, Copy)]
pub struct Span {
    pub from: u16,
    pub to: u16,
}

// The cells whose places on x, y and z are in three spans.
#[derive(Clone, Copy)]
pub struct Block {
    pub x: Span,
    pub y: Span,
    pub z: Span,
}

// A side of a block in another one: before or after it on an axis.
#[derive(Clone, Copy)]
pub(crate) enum Side {
    BeforeX,
    AfterX,
    BeforeY,
    AfterY,
    BeforeZ,
    AfterZ,
}

pub(crate) const SIDES: [Side; 6] = [
    Side::BeforeX,
    Side::AfterX,
    Side::BeforeY,
    Side::AfterY,
    Side::BeforeZ,
    Side::AfterZ,
];

impl Span {
    fn is_empty(self) -> bool
        ensures { result ≡ empty_span self }
    {
        self.to <= self.from
    }

    // Whether the edge of a shot from a coordinate on meets the span.
    fn is_met(self, edge: u16, at: u16) -> bool
        ensures { result ≡ meets_span edge at self }
    {
        at < self.to && u32::from(self.from) < u32::from(at) + u32::from(edge)
    }

    // The cells that the edge of a shot from a coordinate on spans.
    fn shared(self, edge: u16, at: u16) -> Span
        ensures { result ≡ shared_span edge at self }
    {
        Span {
            from: at.max(self.from),
            to: at.saturating_add(edge).min(self.to),
        }
    }

    // How many cells it has, if it does not end before it begins.
    fn len(self) -> u32
        requires { self.from ≤ self.to }
        ensures { result ≡ self.to - self.from }
    {
        u32::from(self.to - self.from)
    }

    // The cells before those of another in it.
    fn before(self, inner: Span) -> Span
        ensures { result ≡ span_before self inner }
    {
        Span {
            from: self.from,
            to: inner.from,
        }
    }

    // The cells after those of another in it.
    fn after(self, inner: Span) -> Span
        ensures { result ≡ span_after self inner }
    {
        Span {
            from: inner.to,
            to: self.to,
        }
    }
}

impl Block {
    // Whether it has no cell.
    pub(crate) fn is_empty(self) -> bool
        ensures { result ≡ empty_block self }
    {
        self.x.is_empty() || self.y.is_empty() || self.z.is_empty()
    }

    // Whether a shot meets it. A number past the list's shots meets nothing.
    #[tactic(auto, unfolding(crate::specs::Blocks::meets_block))]
    pub(crate) fn is_met(self, coords: &[u16], edge: u16, shot: u32) -> bool
        ensures { result ≡ meets_block edge coords.now shot self }
    {
        let number = shot as usize;
        if shot::count(coords) <= number {
            return false;
        }
        let side = shot::edge_of(edge, coords, number);
        self.x.is_met(side, shot::x_of(coords, number))
            && self.y.is_met(side, shot::y_of(coords, number))
            && self.z.is_met(side, shot::z_of(coords, number))
    }

    // The cells that a shot covers.
    pub(crate) fn shared(self, coords: &[u16], edge: u16, shot: u32) -> Block
        requires { shot < shot_count coords.now }
        ensures { result ≡ shared_block edge coords.now shot self }
    {
        let number = shot as usize;
        let side = shot::edge_of(edge, coords, number);
        Block {
            x: self.x.shared(side, shot::x_of(coords, number)),
            y: self.y.shared(side, shot::y_of(coords, number)),
            z: self.z.shared(side, shot::z_of(coords, number)),
        }
    }

    // How many cells it has.
    pub(crate) fn size(self) -> u32
        requires ordered { Ordered self }
        requires small { Small self }
        ensures { result ≡ size_of self }
    {
        self.x.len() * self.y.len() * self.z.len()
    }

    // The part on a side of a block in it: before and after it on x; on y, of what it spans on x; on z, of what it spans on x and y.
    pub(crate) fn part(self, core: Block, side: Side) -> Block
        ensures { result ≡ part_of self core (place_of side) }
    {
        match side {
            Side::BeforeX => Block {
                x: self.x.before(core.x),
                y: self.y,
                z: self.z,
            },
            Side::AfterX => Block {
                x: self.x.after(core.x),
                y: self.y,
                z: self.z,
            },
            Side::BeforeY => Block {
                x: core.x,
                y: self.y.before(core.y),
                z: self.z,
            },
            Side::AfterY => Block {
                x: core.x,
                y: self.y.after(core.y),
                z: self.z,
            },
            Side::BeforeZ => Block {
                x: core.x,
                y: core.y,
                z: self.z.before(core.z),
            },
            Side::AfterZ => Block {
                x: core.x,
                y: core.y,
                z: self.z.after(core.z),
            },
        }
    }
}
