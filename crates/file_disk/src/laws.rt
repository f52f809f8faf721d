//! What follows from the definitions of `specs/Becoming`: the function is proved to meet its clause.
ghost use Rattle.file_disk.specs.Becoming.{OpeningsKeepFiles};

use crate::DiskFile;

/// What an opening does to its files. One whose gate is closed stays closed, also if it was empty and has zeros then, or
/// lacks them for want of space; one whose gate is open keeps all its bytes. So each pair of files that a crash may leave
/// of a disk which was opened may have become of one that a crash could leave before. Over such pairs
/// `gateway::laws::lives_are_the_models` takes a life to be opened, and it says that both stand for the same state.
pub fn openings_keep_files<F: DiskFile>(_: &F)
    ensures { OpeningsKeepFiles F.honest F.holds F.leaves F.lacks_space }
{}
