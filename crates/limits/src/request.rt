// What recovery is asked. 01: "A request is a record of doubles".

// The squared speeds from which the end can still be reached: a backward interval.
#[derive(Clone, Copy)]
pub struct Interval {
    pub lower: f64,
    pub upper: f64,
}

// A station's record: its backward interval, and its path cap.
#[derive(Clone, Copy)]
pub struct Station {
    pub interval: Interval,
    pub cap: f64,
}

// 01's feas_tol, a_cmp_abs_tol and a_cmp_rel_tol.
#[derive(Clone, Copy)]
pub struct Tolerances {
    pub feas: f64,
    pub abs: f64,
    pub rel: f64,
}

#[derive(Clone, Copy)]
pub struct Request {
    pub a_prev: f64,
    pub prev: Station,
    pub curr: Station,
    pub tolerances: Tolerances,
}
