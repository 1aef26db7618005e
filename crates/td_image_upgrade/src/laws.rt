//! What holds of upgraded code. They do nothing when they are called.

ghost use Rattle.td_image_upgrade.specs.Laws.{SameRun, UpgradedIsCode};

/// Code does the same before and after upgrading.
pub fn same_run()
    ensures { SameRun }
{}

/// Tables that fit together, but for the routines of their sites, fit together once they are upgraded.
pub fn upgraded_is_code()
    ensures { UpgradedIsCode }
{}
