// One section of a cut file: its kind, its payload's length and its payload, or the first fault. Document 02, request 4, decides.
#![tactic(auto)]

ghost use Rattle.std.specs.Prelude.{◌≡◌, length};
ghost use Rattle.refusals.specs.Refusal.{number_in, numbered};
ghost use Rattle.groups.specs.Groups.{read_at};
ghost use Rattle.sections.specs.Section.{rises, kind_number, whole, payload_at, length_at, kind_at, section_at};

use groups::Number;
use payloads::form::form_of;
use payloads::judging::payload_number;
use refusals::refusal::Refusal;

// Its payload goes from one place of the file to another.
#[derive(Clone, Copy)]
pub struct Section {
    pub kind: u64,
    pub start: usize,
    pub end: usize,
}

// The first section has none before it, so 0 stands there.
fn rises(previous: u64, kind: u64) -> bool
    ensures { result ≡ rises previous kind }
{
    previous == 0 || previous < kind
}

fn kind_number(previous: u64, kind: u64) -> Result<(), Refusal>
    ensures { number_in result ≡ kind_number previous kind }
{
    Refusal::KindNotRising.unless(rises(previous, kind))?;
    form_of(kind)?;
    Ok(())
}

fn number_at(file: &[u8], at: usize) -> Result<Number, Refusal>
    ensures { numbered result ≡ whole (read_at file.now at (length file.now)) }
{
    groups::read(file, at, file.len()).map_err(|_| Refusal::FileNumber)
}

// Nothing of the payload is looked at before its length is known to lie in the file.
#[tactic(auto, unfolding(crate::specs::Section::payload_at, payloads::specs::Payload::payload_number))]
fn payload_at(file: &[u8], kind: u64, start: usize, size: u64) -> Result<Section, Refusal>
    ensures { numbered result ≡ payload_at file.now kind start size }
{
    let fits = start <= file.len() && size <= (file.len() - start) as u64;
    Refusal::PayloadBeyondFile.unless(fits)?;
    let end = start + size as usize;
    payload_number(file, form_of(kind), start, end)?;
    Ok(Section { kind, start, end })
}

#[tactic(auto, unfolding(crate::specs::Section::length_at))]
fn length_at(file: &[u8], kind: u64, at: usize) -> Result<Section, Refusal>
    ensures { numbered result ≡ length_at file.now kind at }
{
    let Number { value, next } = number_at(file, at)?;
    payload_at(file, kind, next, value)
}

#[tactic(auto, unfolding(crate::specs::Section::kind_at))]
fn kind_at(file: &[u8], previous: u64, kind: u64, at: usize) -> Result<Section, Refusal>
    ensures { numbered result ≡ kind_at file.now previous kind at }
{
    kind_number(previous, kind)?;
    length_at(file, kind, at)
}

// The section at a place, after one of kind `previous`.
#[tactic(auto, unfolding(crate::specs::Section::section_at))]
pub fn section_at(file: &[u8], at: usize, previous: u64) -> Result<Section, Refusal>
    ensures { numbered result ≡ section_at file.now at previous }
{
    let Number { value, next } = number_at(file, at)?;
    kind_at(file, previous, value, next)
}
