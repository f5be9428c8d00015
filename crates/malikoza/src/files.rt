// Cut files.
ghost use Rattle.cut_files.specs.Part.{Located};

use cut_files::parts::locate;

// Returns 0 and writes where the payload of the section of a kind starts within the file, and its length in bytes; or returns the refusal number and writes
// nothing.
pub fn malikoza_cut_file_section(file: &[u8], kind: u64, start: &mut u64, length: &mut u64) -> u64
    ensures { Located file.now kind result
        start.old start.new
        length.old length.new }
{
    locate(file, kind, start, length)
}
