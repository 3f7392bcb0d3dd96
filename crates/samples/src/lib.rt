// The table of samples, as one theorem.
#![tactic(auto)]

ghost use Rattle.kinds.specs.Samples.{Samples as OfKinds};
ghost use Rattle.limits.specs.Samples.{Samples as OfLimits};
ghost use Rattle.support.specs.Samples.{Samples as OfSupport};

// The definitions of the measure, paths, attributes, status, limits, targets, system calls and page words agree with their samples.
pub fn all_samples_agree()
    ensures { OfKinds × (OfLimits × OfSupport) }
{
    kinds::samples::samples_agree();
    limits::samples::samples_agree();
    support::samples::samples_agree();
}
