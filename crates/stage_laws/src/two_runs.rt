ghost use Rattle.stage_laws.specs.TwoRuns.{RunsAgree};

/// Two images that agree, under one bench, look the same up to a tick before which all items agree: the same is public
/// before it, and all earlier ticks show the same.
pub fn runs_agree()
    ensures { RunsAgree }
{}
