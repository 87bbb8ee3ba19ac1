// The longest lists of a line; a longer one is malformed. Rooms of fixed size, as a caller in C has them: with `Vec`s each judge takes
// an allocator, and a want of memory reads as a fault of the line. A judge of long lists is not inlined, so that other lines need no stack
// for them.

// The readings of a problem.
pub const READINGS: usize = 520;

// The readings of a start.
pub const START_READINGS: usize = 256;

// The values of a curve.
pub const CURVE_VALUES: usize = 16;

// The effects that a call writes.
pub const EFFECTS: usize = 80;

// Every other list: a problem's values, starts, bounds, places of effects, theta.
pub const SHORT: usize = 8;
