// The entry of cut files, called on a case: the file is its first list.
use crate::calling::{BEFORE, Told};
use byte_lists::doubles::pattern_at;
use malikoza::files::malikoza_cut_file_section;

pub(crate) fn section(case: &[u8], file: &[u8]) -> Told {
    let mut told = BEFORE;
    told.number = malikoza_cut_file_section(
        file,
        pattern_at(case, 2),
        &mut told.first,
        &mut told.second,
    );
    told
}
