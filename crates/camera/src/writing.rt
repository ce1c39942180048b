// Writing a snapshot of the camera's settings to a lent buffer.
ghost use Rattle.std.specs.Prelude.{◌≡◌, length};
ghost use Rattle.camera.specs.{Outcomes.{of_writing}, Writing.{written, written_out}};

use crate::record::Camera;
use wire::Refusal;

impl Camera {
    // Writes the camera's snapshot, 01's settings sheet, to the start of out; how many bytes that is.
    #[tactic(auto, using(crate::proofs::Laws::Writing::writing))]
    pub fn write(self, out: &mut [u8]) -> Result<usize, Refusal>
        ensures value { of_writing self result ≡ written self (length out.old) }
        ensures out_after { out.new ≡ written_out self out.old }
    {
        self.check()?;
        let count = encoding::measure(self.settings);
        if out.len() < count {
            return Err(Refusal::NoRoom);
        }
        encoding::write(self.settings, out);
        Ok(count)
    }
}
