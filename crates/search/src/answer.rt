// What recovery answers.
ghost use Rattle.std.specs.Prelude.{◌≡◌};
ghost use Rattle.search.specs.Answer.{certified};

use certificates::certificate::Figures;

// The speed, both worst figures and the number of candidates tried.
#[derive(Clone, Copy)]
pub struct Certified {
    pub speed: f64,
    pub worst_normalized: f64,
    pub worst_raw: f64,
    pub tried: u64,
}

impl Certified {
    pub(crate) fn with(speed: f64, f: Figures, tried: u64) -> Certified
        ensures { result ≡ certified speed f.worst_normalized f.worst_raw tried }
    {
        Certified {
            speed,
            worst_normalized: f.worst_normalized,
            worst_raw: f.worst_raw,
            tried,
        }
    }
}
