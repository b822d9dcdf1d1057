ghost use Rattle.std.specs.Prelude.{◌≡◌, ℕ, ◌≤◌, List, length, IfOk, IsErrOf};
ghost use Rattle.std.specs.declared.option.Option.{Option};
ghost use Rattle.opal_base.specs.Outside.{Rose, FileMap, Missed, HasContent, IsAbsentFrom};

use crate::fault::FileFault;
use std::alloc::Global;

/// What gives the content of named files.
pub trait Files {
    /// The files by their names, where the object tells them.
    ghost told: { Self → Option FileMap };

    /// How often it has failed.
    ghost faults: { Self → ℕ };

    /// How often it has answered that a file is absent.
    ghost tally: { Self → ℕ };

    /// The name of the last file that was absent.
    ghost missed: { Self → List ℕ };

    /// The content of a file, or its first `most` bytes where it is longer. `Absent` where no file
    /// has this name, `Failed` where reading failed, `NoMemory` where no memory was found.
    fn read(&mut self, alloc: Global, name: &str, most: usize) -> Result<Vec<u8>, FileFault>
        ensures told { told self.new ≡ told self.old }
        ensures bound { IfOk result (λ bytes. length bytes.items ≤ most) }
        ensures content { IfOk result (λ bytes. HasContent (told self.old) name.now most bytes.items) }
        ensures absent { IsErrOf result FileFault.Absent → IsAbsentFrom (told self.old) name.now }
        ensures missed { IsErrOf result FileFault.Absent → Missed (tally self.old) (tally self.new) (missed self.new) name.now }
        ensures later_tally { tally self.old ≤ tally self.new }
        ensures failed { IsErrOf result FileFault.Failed → Rose (faults self.old) (faults self.new) }
        ensures later { faults self.old ≤ faults self.new };
}
