ghost use Rattle.hyparview.specs.Lawful.{EachStepTellsItAll, StayLawful};

/// The views have few members, each once, none in both, and never the node itself, whatever events
/// come, from whatever nodes, and with whatever words.
pub fn views_stay_lawful()
    ensures { StayLawful }
{}

/// Each step keeps the views lawful, and those of the same node. Whoever knows the neighbours and
/// follows each `Up` and `Down` knows the new ones; each `Up` names a node that isn't a neighbour
/// at that time, and each `Down` one that is. Nothing is sent to the node itself, unless the event
/// came from itself; and only messages of HyParView are sent.
pub fn each_step_tells_it_all()
    ensures { EachStepTellsItAll }
{}
