// Document 01's numbers for game sheets, and the code's own, named once; specs/Limits.antt and specs/code/ have them too. `as`, since a
// constant can't call `from`.

// The bytes of an entry of the contents: its letter, and two each of offset and length.
pub const ENTRY: usize = 5;

// The bytes of the contents of a game sheet with G, and so its first offset.
pub const GATED_CONTENTS: usize = 5 * ENTRY;

pub const MOST_POSITIONS: usize = 256;

pub const MOST_ACTIONS: u8 = 8;

pub const MOST_DELAY: u8 = 6;

pub const MOST_MOVES: usize = 4096;

pub const MOST_NODES: usize = 16384;

// The most first words: three actions out of the most.
pub const MOST_WORDS: usize = ROW * ROW * ROW;

// Where powers are cut off, far above the most nodes.
pub const MOST_POWER: usize = 65536;

// The grid of targets: a row for each position that there can be, a target for each action, and the mark of an absent one.
pub const ROWS: usize = MOST_POSITIONS;

pub const ROW: usize = MOST_ACTIONS as usize;

pub const ABSENT: u16 = MOST_POSITIONS as u16;

// The index of first lines: an entry for each position, and one for the end of the last position's.
pub const INDEX: usize = MOST_POSITIONS + 1;
