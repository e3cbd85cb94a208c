// A paper whose heat is fixed.
ghost use Rattle.std.specs.Prelude.{◌≡◌, true};
ghost use Rattle.clerk.specs.Papers.{fixing_good};

use crate::paper::Fixing;

// Only fixing makes one, and posting takes it away.
#[derive(Drop)]
pub struct FixedPaper {
    pub(crate) fixing: Fixing,
    ghost good: { fixing_good fixing ≡ true },
}

impl FixedPaper {
    // What was fixed.
    pub fn fixing(&self) -> Fixing
        ensures { result ≡ self.now.fixing }
    {
        self.fixing
    }
}
