//! What the frames of a dump tell, by what the program means; and that a dump is one.

ghost use Rattle.edi_dumped.specs.Instances.{FramesAreInstances, LinesAreOfInstances};
ghost use Rattle.edi_dumped.specs.One.{DumpsAreOne};

/// Where the machine agrees with a state of the meaning, the lines of a frame tell what the variables of its instance hold.
pub fn lines_are_of_instances()
    ensures law { LinesAreOfInstances }
{}

/// And there the frames that are told of a process begin where its instances do, one by one from the newest down.
pub fn frames_are_instances()
    ensures law { FramesAreInstances }
{}

/// What the objects hold decides the dump of a run, unless the run uses up its turns.
pub fn dumps_are_one()
    ensures law { DumpsAreOne }
{}
