// The laws of trails under given landmarks.
ghost use Rattle.single_route.specs.TrailLaws.{CarriedTrailsAreThese, TrailsAreGood, TrailsAreOne};

/// The laws of trails, for whoever compares routes: under given landmarks there is at most one trail between two nodes, it is a
/// good trip, and it is the one over which a packet is carried by any scheme with these landmarks that keeps all rules. It does
/// nothing: its contract is the laws.
pub fn trail_laws()
    ensures one { TrailsAreOne }
    ensures good { TrailsAreGood }
    ensures carried { CarriedTrailsAreThese }
{}
