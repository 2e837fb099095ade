// The fields of a plan file and of a trace.
use bits::Width;

/// The number of rows.
pub const COUNT: Width = Width { bits: 8 };

/// How many bytes a row has.
pub const ROW_BYTES: usize = 4;

/// A row's kind.
pub const KIND: Width = Width { bits: 1 };

/// The zero bits after the kind.
pub const ZEROS: Width = Width { bits: 3 };

/// A row's budget, and its period.
pub const TICKS: Width = Width { bits: 14 };

/// A trace record's kind.
pub const TRACE_KIND: Width = Width { bits: 2 };

/// A trace record's argument.
pub const ARGUMENT: Width = Width { bits: 14 };
