//! Which calls the meter of `SimDisk` lets fail. Each function does nothing: its clause is a theorem, which is proved.
ghost use Rattle.trial_disk.specs.Metered.{FuseBlows, FailsOnce};

/// After `SimDisk::fuse_after(k)`, where no single call is set to fail, exactly the first `k` calls pass.
pub fn fuse_blows()
    ensures { FuseBlows }
{}

/// After `SimDisk::fail_once(k)`, where no fuse is set, each call passes but the one behind the first `k`.
pub fn fails_once()
    ensures { FailsOnce }
{}
