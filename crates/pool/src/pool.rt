// A pool over a field and a rack.
use crate::kinds::Phase;
use field::Field;
use layout::plan::Plan;
use rack::rack::Rack;

/// A pool: the retained memory of a machine, spread over the modules of a rack. From its laying or opening on the field stays,
/// and the rack is reached through its pool alone.
#[derive(Drop)]
pub struct Pool<F: Field, R: Rack> {
    pub(crate) plan: Plan,
    pub(crate) field: F,
    pub(crate) rack: R,
    pub(crate) phase: Phase,
    /// how many stripes are carried
    // It stands beside the phase, since it is told in every phase: outside a changeover, what the last one left.
    pub(crate) carried: u16,
}
