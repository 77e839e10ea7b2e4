ghost use Rattle.stage_laws.specs.OneTick.{OneTickAgrees};

/// A tick goes by what is public and by what its items tell, whatever its power is: of two chips of a run of which the
/// same is public, and whose items agree, the same is public behind it, and it shows the same.
pub fn one_tick_agrees()
    ensures { OneTickAgrees }
{}
