// Laws of the definitions.
ghost use Rattle.collector.specs.Sweeping.{LooseIsUnreached};

/// Where the marks cover a state and nothing is grey, no blob that is neither marked nor grey is reached from a root, nor
/// from what was shaded.
pub fn loose_is_unreached()
    ensures { LooseIsUnreached }
{}
