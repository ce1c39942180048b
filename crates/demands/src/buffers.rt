// The lengths of buffers that always suffice, as the code's constants have them.
ghost use Rattle.std.specs.Prelude.{◌≡◌};
ghost use Rattle.demands.specs.Endpoints.{buffer_lengths};

use batch::ANSWER_ROOM;
use request::LONGEST_ANSWER;
use snapshot::{LONGEST, LONGEST_WRITTEN};

// Of a reply, of a camera's snapshot, of a merge, and of the answer to each request of a batch.
pub fn buffer_lengths() -> [usize; 4]
    ensures { result ≡ buffer_lengths }
{
    [LONGEST_ANSWER, LONGEST_WRITTEN, LONGEST, ANSWER_ROOM]
}
