// What a row that is not empty says, with 01's roundings: the terms of its residuals that depend on no speed.

// coef_curr·inv, (coef_prev·inv)·a_prev, rhs·inv; coef_curr, coef_prev·a_prev, rhs; norm and raw_tol.
#[derive(Clone, Copy)]
pub struct Block {
    pub incline: f64,
    pub shift: f64,
    pub bound: f64,
    pub curr: f64,
    pub prev: f64,
    pub rhs: f64,
    pub norm: f64,
    pub tol: f64,
}
