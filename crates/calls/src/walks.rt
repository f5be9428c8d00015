// The entries of the walk, called on a case: its state is eight numbers of eight bytes.
use crate::calling::{BEFORE, Told, only};
use byte_lists::doubles::pattern_at;
use malikoza::steps;
use words::bytes::put;

fn lay(walk: [u64; 8], out: &mut [u8]) {
    for k in 0..8 {
        put(out, k, walk[k]);
    }
}

pub(crate) fn start(case: &[u8], out: &mut [u8]) -> Told {
    let mut walk = [BEFORE.first; 8];
    steps::malikoza_walk_start(
        pattern_at(case, 2),
        pattern_at(case, 3),
        pattern_at(case, 4),
        pattern_at(case, 5),
        pattern_at(case, 6),
        pattern_at(case, 7),
        pattern_at(case, 8),
        &mut walk,
    );
    lay(walk, out);
    only(0)
}

pub(crate) fn step(case: &[u8], rows: &[u8], before: &[u8], out: &mut [u8]) -> Told {
    let mut walk = std::array::from_fn(|k| pattern_at(before, k));
    let mut told = BEFORE;
    told.number = steps::malikoza_walk_step(
        &mut walk,
        pattern_at(case, 2),
        pattern_at(case, 3),
        pattern_at(case, 4),
        rows,
        &mut told.first,
        &mut told.second,
        &mut told.third,
        &mut told.fourth,
    );
    lay(walk, out);
    told
}
