//! The laws of the plans, for the crates above. Each contract is one of them; the bodies do nothing.
ghost use Rattle.hp_adoption.specs.AdoptMeans.{AdoptionMeans};
ghost use Rattle.hp_adoption.specs.FlushActs.{FlushesAtOnce};
ghost use Rattle.hp_adoption.specs.ListMeans.{ReconstructMeans, AppendMeans, FlushMeans};

/// Reconstruction.
pub fn reconstruct_means()
    ensures { ReconstructMeans }
{}

/// An entry for an own current node.
pub fn append_to_list_means()
    ensures { AppendMeans }
{}

/// Pending table characters, put as one text; and that this is what they make one after the other.
pub fn flush_means()
    ensures means { FlushMeans }
    ensures at_once { FlushesAtOnce }
{}

/// The adoption agency algorithm, and the start of a link: over every older state, with no condition on the view.
pub fn adoption_means()
    ensures { AdoptionMeans }
{}
