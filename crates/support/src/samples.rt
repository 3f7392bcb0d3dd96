ghost use Rattle.support.specs.Samples.{Samples};

/// The definitions agree with the samples.
pub fn samples_agree()
    ensures { Samples }
{}
