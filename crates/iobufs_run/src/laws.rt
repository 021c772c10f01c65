//! Laws of runs. Their contracts are the laws; the functions do nothing.
ghost use Rattle.iobufs_run.specs.Choices.{NoOtherChoices, OnlyWants, RefusalsKeep};

/// Two steps of the same command on the same names, neither refused with `Memory`, have the same outcome, except for
/// the capacity after adopted bytes and whether a native view is recovered. A step is refused with `Memory` only if the
/// command may allocate and no other cause holds.
pub fn choices_law()
    ensures same { NoOtherChoices }
    ensures memory { OnlyWants }
{}

/// A refused command leaves what each name holds, except for names that it consumes, which `Memory` may free.
pub fn refusal_law()
    ensures { RefusalsKeep }
{}
