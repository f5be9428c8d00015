// The whole file, section by section: its first fault, and the section of a kind.
ghost use Rattle.std.specs.Prelude.{◌≡◌};
ghost use Rattle.std.specs.Iterator.{YieldsFirstBy, item_count};
ghost use Rattle.refusals.specs.Refusal.{number_in, numbered};
ghost use Rattle.cut_files.specs.File.{sections_left, file_number, among, sections_of, section_of};

use refusals::refusal::Refusal;
use sections::{Section, section_at};

// The sections from a place on, after one of kind `previous`; nothing after a fault.
#[derive(Drop)]
struct Sections<'a> {
    file: &'a [u8],
    at: usize,
    previous: u64,
}

impl<'a> Iterator for Sections<'a> {
    type Item = Result<Section, Refusal>;

    ghost next_gives = { YieldsFirstBy numbered (λ s. sections_left s.file.now s.at s.previous) };

    ghost remaining = { item_count (λ s. sections_left s.file.now s.at s.previous) };

    // Two loops go by it, and a file has few sections: it is built into both.
    #[inline(always)]
    #[tactic(auto, using(crate::proofs::Going::left_none, crate::proofs::Going::left_placed, crate::proofs::Going::left_refused))]
    fn next(&mut self) -> Option<Result<Section, Refusal>> {
        if self.file.len() <= self.at {
            return None;
        }
        let found = section_at(self.file, self.at, self.previous);
        match found {
            Ok(section) => {
                self.at = section.end;
                self.previous = section.kind;
            }
            Err(_) => self.at = self.file.len(),
        }
        Some(found)
    }
}

impl<'a> Sections<'a> {
    #[tactic(auto, using(crate::proofs::Going::left_all))]
    fn of(file: &'a [u8]) -> Sections<'a>
        ensures { sections_left result.file.now result.at result.previous ≡ sections_of file.now }
    {
        Sections {
            file,
            at: 0,
            previous: 0,
        }
    }
}

// The first fault of the whole file: 40 to 45.
#[tactic(auto, unfolding(crate::specs::File::file_number, crate::specs::File::fault_in))]
pub fn file_number(file: &[u8]) -> Result<(), Refusal>
    ensures { number_in result ≡ file_number file.now }
{
    Refusal::FileTooLong.unless(file.len() <= 65536)?;
    for section in Sections::of(file) {
        section?;
    }
    Ok(())
}

#[tactic(auto, unfolding(crate::specs::File::among))]
fn find(file: &[u8], asked: u64) -> Result<Section, Refusal>
    ensures { numbered result ≡ among asked (sections_of file.now) }
{
    for section in Sections::of(file) {
        let section = section?;
        if section.kind == asked {
            return Ok(section);
        }
    }
    Err(Refusal::KindAbsent)
}

// The section of a kind. The whole file is judged first, so that what lies behind the section counts as well.
#[tactic(auto, unfolding(crate::specs::File::section_of))]
pub fn section_of(file: &[u8], asked: u64) -> Result<Section, Refusal>
    ensures { numbered result ≡ section_of file.now asked }
{
    file_number(file)?;
    find(file, asked)
}
