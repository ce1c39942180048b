// Metadata ids (001's MetadataId). Known are Microsoft's own, MetadataId_PhotoConfirmation 1, _UsbVideoHeader, _CaptureStats,
// _CameraExtrinsics, _CameraIntrinsics and _FrameIllumination 6; and custom ids, from MetadataId_Custom_Start on. A reader takes the
// ids between them too (request #105 of document 02), and marks them.
ghost use Rattle.std.specs.Prelude.{◌≡◌};
ghost use Rattle.frame.specs.Ids.{is_known, is_readable};

// MetadataId_Standard_End; MetadataId_Standard_Start is 1
const LAST_STANDARD: u32 = 6;

// MetadataId_Custom_Start
const FIRST_CUSTOM: u32 = 0x8000_0000;

// The ids that the writer writes, and that are handed out without a mark.
#[tactic(auto, unfolding(crate::specs::Ids::is_known))]
pub(crate) fn is_known(id: u32) -> bool
    ensures { result ≡ is_known id }
{
    matches!(id, 1..=LAST_STANDARD | FIRST_CUSTOM..)
}

// The ids that a reader takes: all but 0.
#[tactic(auto, unfolding(crate::specs::Ids::is_readable))]
pub(crate) fn is_readable(id: u32) -> bool
    ensures { result ≡ is_readable id }
{
    1 <= id
}
