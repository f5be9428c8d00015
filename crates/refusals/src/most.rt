// The limits of document 01, which refusals 1, 11 and 28 keep.

pub const ROWS: usize = 256;

pub const STATIONS: usize = 4096;

pub const SAMPLES: usize = 65536;
