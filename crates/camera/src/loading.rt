// Loading a snapshot: its form, then each record as a SET; all or nothing.
ghost use mathlib.Core.{Path.{◌≡◌}, Bool.{true}};
ghost use Rattle.snapshot.specs.Form.{well_formed};
ghost use Rattle.controls.specs.Controls.{item_told};
ghost use Rattle.settings.specs.Items.{set_told};
ghost use Rattle.camera.specs.{Outcomes.{of_change}, Loading.{selector_at, record_item, loaded}, Steps.{item_taken, load_done}};

use crate::record::Camera;
use controls::Setting;
use settings::Settings;
use wire::{Refusal, endpoints, selectors};

fn selector_at(key: usize) -> u8
    ensures { result ≡ selector_at key }
{
    match key {
        snapshot::EV_KEY => selectors::EV,
        1..=endpoints::PLACES => selectors::FACE,
        snapshot::METADATA_KEY => selectors::METADATA,
        snapshot::HDR_KEY => selectors::HDR,
        _ => selectors::THROTTLE,
    }
}

impl Camera {
    // A record of a key, as a SET.
    #[tactic(auto, using(crate::proofs::Laws::Loading::as_set))]
    fn record_item(self, key: usize, bytes: &[u8]) -> Result<Setting, Refusal>
        ensures { item_told result ≡ record_item self.profile self.streaming key bytes.now }
    {
        let selector = selector_at(key);
        self.check_set(selector)?;
        self.profile.item(selector, wire::tail(bytes, 4))
    }

    // The settings with a record of a key.
    #[tactic(auto, using(crate::proofs::Laws::Loading::taking))]
    fn take_record(self, settings: Settings, key: usize, bytes: &[u8]) -> Result<Settings, Refusal>
        ensures { set_told settings result ≡ item_taken settings (record_item self.profile self.streaming key bytes.now) }
    {
        Ok(settings.put(self.record_item(key, bytes)?))
    }

    // Every record of a well-formed snapshot as a SET, in order: the first refusal, or the record with all of them.
    #[tactic(auto, using(crate::proofs::Laws::Loading::load_end))]
    fn load_records(self, s: &[u8]) -> Result<Camera, Refusal>
        requires { well_formed s.now ≡ true }
        ensures { of_change self result ≡ load_done self s.now }
    {
        let mut settings = self.settings;
        for (key, record) in snapshot::records_in(s) {
            settings = self.take_record(settings, key, record)?;
        }
        Ok(Camera { settings, ..self })
    }

    // Loads a snapshot, 01's settings sheet: it counts as its records' SETs, in order.
    #[tactic(auto, using(crate::proofs::Laws::Loading::loading))]
    pub fn load(self, s: &[u8]) -> Result<Camera, Refusal>
        ensures { of_change self result ≡ loaded self s.now }
    {
        self.check()?;
        snapshot::check(s)?;
        self.load_records(s)
    }
}
