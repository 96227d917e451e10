//! Facts that texts and wills leave behind besides their answers.
use crate::cost_meter::CostMeter;
use crate::told::Told;
use std::alloc::Global;

/// Whom the last text or will told something, how many edits were accepted, and what all texts and
/// wills cost.
#[derive(Drop)]
pub struct Report {
    pub told: Told,
    /// The number of edits accepted so far, those of wills among them.
    pub edits: u64,
    /// The cost of all texts and wills so far.
    pub cost: CostMeter,
}

impl Report {
    /// Before any text or will. Allocates nothing.
    pub fn new(alloc: Global) -> Report {
        Report {
            told: Told::nobody(alloc),
            edits: 0,
            cost: CostMeter::new(),
        }
    }
}
