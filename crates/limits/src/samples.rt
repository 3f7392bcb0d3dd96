ghost use Rattle.limits.specs.Samples.{Samples};

/// The definitions agree with the samples.
pub fn samples_agree()
    ensures { Samples }
{}
