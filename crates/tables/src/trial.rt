// What every candidate is tried against.
use limits::projection::Span;
use rows::block::Block;

// The tolerance, both bounds, and the table: what each row that is not empty says. All of it is the same for every candidate.
#[derive(Clone, Copy)]
pub struct Trial<'a> {
    pub tol: f64,
    pub bounds: Span,
    pub table: &'a [Block],
}
