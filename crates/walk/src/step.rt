// One step of a walk. 02: "a refused step returns the state unchanged and may be tried again with other rows".
ghost use Rattle.std.specs.Prelude.{◌<◌, ◌≡◌};
ghost use Rattle.refusals.specs.Most.{most_stations};
ghost use Rattle.refusals.specs.Refusal.{numbered};
ghost use Rattle.byte_lists.specs.Bytes.{doubles_of};
ghost use Rattle.walk.specs.Walking.{next_request, advanced, stepped, numbered_step};

use crate::state::Walk;
use limits::request::{Request, Station};
use refusals::most;
use refusals::refusal::Refusal;
use search::answer::Certified;
use topp2_ra::recovery::recover_forward_intersection;

// The answer, and the walk after it.
#[derive(Clone, Copy)]
pub struct Stepped {
    pub walk: Walk,
    pub answer: Result<Certified, Refusal>,
}

fn next_request(w: Walk, station: Station) -> Request
    ensures { result ≡ next_request w station }
{
    let prev = w.station;
    let tolerances = w.tolerances;
    Request {
        a_prev: w.speed,
        prev,
        curr: station,
        tolerances,
    }
}

fn advance(w: Walk, station: Station, answer: Result<Certified, Refusal>) -> Walk
    requires { w.count < most_stations }
    ensures { result ≡ advanced w station (numbered answer) }
{
    let tolerances = w.tolerances;
    match answer {
        Ok(c) => Walk {
            tolerances,
            speed: c.speed,
            station,
            count: w.count + 1,
        },
        Err(_) => w,
    }
}

impl Walk {
    pub fn step(self, station: Station, rows: &[u8]) -> Stepped
        ensures { numbered_step result ≡ stepped self station (doubles_of rows.now) }
    {
        if self.count < most::STATIONS as u64 {
            let answer = recover_forward_intersection(next_request(self, station), rows);
            let walk = advance(self, station, answer);
            return Stepped { walk, answer };
        }
        Stepped {
            walk: self,
            answer: Err(Refusal::WalkFull),
        }
    }
}
