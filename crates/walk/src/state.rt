// The state of a walk, and its start. 02: "The walk's state goes in and comes back with each step".
ghost use Rattle.std.specs.Prelude.{◌≡◌};
ghost use Rattle.walk.specs.Walking.{started};

use limits::request::{Station, Tolerances};

// The last committed speed, the record of the station that has it, and how many stations there are so far.
#[derive(Clone, Copy)]
pub struct Walk {
    pub tolerances: Tolerances,
    pub speed: f64,
    pub station: Station,
    pub count: u64,
}

// Nothing is tested here. 02: "The start speed is tested by the first step, as a_prev."
pub fn start(tolerances: Tolerances, speed: f64, station: Station) -> Walk
    ensures { result ≡ started tolerances speed station }
{
    Walk {
        tolerances,
        speed,
        station,
        count: 1,
    }
}
