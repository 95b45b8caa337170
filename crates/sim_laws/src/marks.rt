//! Which flags are defined decides nothing but whether a run is well defined.

ghost use Rattle.sim_laws.specs.FewerMarks.{FewerMarks, MarksAlone};

/// With fewer flags defined, where each that is taken away is written before it is read, a well-defined
/// run stays so and shows the same. `states` says of any run and any marks that its states stay the
/// same but for their marks.
pub fn fewer_marks()
    ensures run { FewerMarks }
    ensures states { MarksAlone }
{}
