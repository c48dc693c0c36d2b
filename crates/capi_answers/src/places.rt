// Where the numbers of an answer stand, call by call, and how many there are. include/heqdanu.h has the same names with HEQDANU_ before
// them.

// Every call but the cover test: the refusal's number, 0 if accepted, and its detail.
pub const NUMBER: usize = 0;

pub const DETAIL: usize = 1;

// Measuring, listing and counting again.
pub const VOLUME: usize = 2;

pub const AREA: usize = 3;

pub const EDGE_LENGTH: usize = 4;

pub const INNER_LENGTH: usize = 5;

pub const CORNERS: usize = 6;

pub const MEASURE_ANSWER: usize = 7;

// The corners at one x: where their part of the listing begins and ends.
pub const PART_FIRST: usize = 2;

pub const PART_END: usize = 3;

pub const CORNERS_AT_ANSWER: usize = 4;

// The index alone.
pub const INDEX_ANSWER: usize = 2;

// Crediting.
pub const CREDIT_ANSWER: usize = 2;

// Pricing, in cents.
pub const VOLUME_CHARGE: usize = 2;

pub const AREA_CHARGE: usize = 3;

pub const EDGE_CHARGE: usize = 4;

pub const PRICE_ANSWER: usize = 5;

// The cover test: 1 and the shot, or 0 and 0.
pub const COVERED: usize = 0;

pub const SHOT: usize = 1;

pub const COVERS_ANSWER: usize = 2;

// Reading a shot file or a VOX file.
pub const READ_FIELD: usize = 2;

pub const READ_EDGE: usize = 3;

pub const READ_GRID: usize = 4;

pub const READ_SHOTS: usize = 5;

pub const READ_ANSWER: usize = 6;

// Writing.
pub const WRITE_BYTES: usize = 2;

pub const WRITE_ANSWER: usize = 3;
