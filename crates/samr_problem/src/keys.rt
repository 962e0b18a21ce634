//! The keys of each table: what their values have to be, and in which order their faults are told.

/// What the value of a key has to be.
#[derive(Clone, Copy)]
pub enum Kind {
    /// The version of the format.
    Format,
    /// A whole number: the least, the greatest, and the one that stands for a number that is not there.
    Number(i64, i64, i64),
    /// A number for each real axis: the least, the greatest, and the one that stands for a number that
    /// is not there.
    Vector(i64, i64, i64),
    /// A truth value for each real axis.
    Flags,
    /// The ratios: for each level above 0 a list of factors, one for each real axis.
    Ratios,
    /// The length of a tile: 0 or a number from 8 on.
    Tile,
    /// A first value, and a slope for each real axis.
    Values,
    /// The two factors of the update: of the cell and of its neighbours.
    Factors,
    /// The rule by which fine cells get values of coarse ones.
    Refine,
    /// The rule by which coarse cells get values of fine ones.
    Coarsen,
    /// A value or a rule for each real axis.
    Rules,
    /// A list of probes: a level and a cell of its domain.
    Probes,
    /// A list of tables: the least and the greatest number of them.
    Tables(usize, usize),
    /// The list of `ball` tables, which share their number with those of `box`.
    Balls,
    /// The lengths of a `box`, each at most that of the finest domain.
    Size,
    /// The lower corner of a part, which meets no earlier part.
    Low,
    /// The upper corner of a part.
    High,
}

/// What can be wrong at a key.
#[derive(Clone, Copy)]
pub enum Fault {
    /// The key is required and not there.
    Missing,
    /// The value is of another type.
    Mistyped,
    /// The value is out of range, at a key on which all lengths depend.
    Early,
    /// The list has another length.
    Mislong,
    /// The value is out of range.
    Outside,
}

/// A key of a table.
#[derive(Clone, Copy)]
pub struct Row {
    pub name: &'static str,
    /// Whether every such table has the key.
    pub required: bool,
    /// Whether its range is looked at before any length.
    pub early: bool,
    pub kind: Kind,
}

/// The keys at the top, in the order in which their faults are told, up to the lists of tables.
pub const TOP_ROWS: [Row; 23] = [
    Row {
        name: "format",
        required: true,
        early: true,
        kind: Kind::Format,
    },
    Row {
        name: "dim",
        required: true,
        early: true,
        kind: Kind::Number(2, 3, 0),
    },
    Row {
        name: "domain",
        required: true,
        early: false,
        kind: Kind::Vector(1, 4_194_304, 1),
    },
    Row {
        name: "periodic",
        required: true,
        early: false,
        kind: Kind::Flags,
    },
    Row {
        name: "block",
        required: true,
        early: false,
        kind: Kind::Vector(4, 4_194_304, 1),
    },
    Row {
        name: "ghost",
        required: false,
        early: false,
        kind: Kind::Vector(0, 8, 0),
    },
    Row {
        name: "levels",
        required: false,
        early: false,
        kind: Kind::Number(1, 5, 1),
    },
    Row {
        name: "ratio",
        required: false,
        early: false,
        kind: Kind::Ratios,
    },
    Row {
        name: "nest",
        required: false,
        early: false,
        kind: Kind::Vector(1, 8, 1),
    },
    Row {
        name: "tag_buffer",
        required: false,
        early: false,
        kind: Kind::Vector(0, 8, 0),
    },
    Row {
        name: "efficiency",
        required: false,
        early: false,
        kind: Kind::Number(1, 100, 80),
    },
    Row {
        name: "smallest",
        required: false,
        early: false,
        kind: Kind::Number(1, 64, 2),
    },
    Row {
        name: "largest",
        required: false,
        early: false,
        kind: Kind::Number(1, 4_194_304, 64),
    },
    Row {
        name: "tile",
        required: false,
        early: false,
        kind: Kind::Tile,
    },
    Row {
        name: "regrid",
        required: false,
        early: false,
        kind: Kind::Number(1, 1_000, 1),
    },
    Row {
        name: "steps",
        required: false,
        early: false,
        kind: Kind::Number(0, 1_000, 0),
    },
    Row {
        name: "modulus",
        required: false,
        early: false,
        kind: Kind::Number(2, 2_147_483_647, 1_000_000),
    },
    Row {
        name: "init",
        required: false,
        early: false,
        kind: Kind::Values,
    },
    Row {
        name: "update",
        required: false,
        early: false,
        kind: Kind::Factors,
    },
    Row {
        name: "refine",
        required: false,
        early: false,
        kind: Kind::Refine,
    },
    Row {
        name: "coarsen",
        required: false,
        early: false,
        kind: Kind::Coarsen,
    },
    Row {
        name: "boundary",
        required: false,
        early: false,
        kind: Kind::Rules,
    },
    Row {
        name: "probe",
        required: false,
        early: false,
        kind: Kind::Probes,
    },
];

/// The keys of a `field` table.
pub const FIELD_ROWS: [Row; 7] = [
    Row {
        name: "ghost",
        required: false,
        early: false,
        kind: Kind::Vector(0, 8, 0),
    },
    Row {
        name: "modulus",
        required: false,
        early: false,
        kind: Kind::Number(2, 2_147_483_647, 1_000_000),
    },
    Row {
        name: "init",
        required: false,
        early: false,
        kind: Kind::Values,
    },
    Row {
        name: "update",
        required: false,
        early: false,
        kind: Kind::Factors,
    },
    Row {
        name: "refine",
        required: false,
        early: false,
        kind: Kind::Refine,
    },
    Row {
        name: "coarsen",
        required: false,
        early: false,
        kind: Kind::Coarsen,
    },
    Row {
        name: "boundary",
        required: false,
        early: false,
        kind: Kind::Rules,
    },
];

/// The keys of a `part` table.
pub const PART_ROWS: [Row; 2] = [
    Row {
        name: "lo",
        required: true,
        early: false,
        kind: Kind::Low,
    },
    Row {
        name: "hi",
        required: true,
        early: false,
        kind: Kind::High,
    },
];

/// The keys of a `box` table.
pub const BOX_ROWS: [Row; 3] = [
    Row {
        name: "lo",
        required: true,
        early: false,
        kind: Kind::Vector(-8_388_608, 8_388_608, 0),
    },
    Row {
        name: "size",
        required: true,
        early: false,
        kind: Kind::Size,
    },
    Row {
        name: "velocity",
        required: false,
        early: false,
        kind: Kind::Vector(-4_096, 4_096, 0),
    },
];

/// The keys of a `ball` table.
pub const BALL_ROWS: [Row; 3] = [
    Row {
        name: "at",
        required: true,
        early: false,
        kind: Kind::Vector(-8_388_608, 8_388_608, 0),
    },
    Row {
        name: "radius",
        required: true,
        early: false,
        kind: Kind::Number(0, 4_194_304, 0),
    },
    Row {
        name: "velocity",
        required: false,
        early: false,
        kind: Kind::Vector(-4_096, 4_096, 0),
    },
];

/// The keys of the lists of tables, in the order in which their faults are told.
pub const LIST_ROWS: [Row; 4] = [
    Row {
        name: "field",
        required: false,
        early: false,
        kind: Kind::Tables(0, 3),
    },
    Row {
        name: "part",
        required: false,
        early: false,
        kind: Kind::Tables(1, 8),
    },
    Row {
        name: "box",
        required: false,
        early: false,
        kind: Kind::Tables(0, 32),
    },
    Row {
        name: "ball",
        required: false,
        early: false,
        kind: Kind::Balls,
    },
];
