// How far the printing came.
use crate::line_fault::LineFault;
use crate::tally::Tally;

/// What is kept of the answers that were printed, and why that ended where more might have come.
#[derive(Drop)]
pub struct Printed {
    pub tally: Tally,
    pub end: Option<LineFault>,
}
