ghost use Rattle.kinds.specs.Samples.{Samples};

/// The defined readings agree with the samples.
pub fn samples_agree()
    ensures { Samples }
{}
