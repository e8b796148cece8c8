//! What the ends of new rings are to the workers, as a function that does nothing and whose
//! contract is the law.
ghost use Rattle.run_rings.specs.Laws.{NewEndsFit};

/// The ends of process, butler and control are new; the butler's are the other ends of the
/// process's rings, and so is control's.
pub fn new_ends_fit()
    ensures { NewEndsFit }
{}
