//! A law of images.

ghost use Rattle.std.specs.Prelude.{◌≡◌, ℕ, List};
ghost use Rattle.disk_core.specs.Images.{Torn};
ghost use Rattle.disk_core.specs.declared.file.TheConstants.{SLACK_AT, SLACK_BYTES};
ghost use Rattle.command_core.specs.Commands.{CommandValue};
ghost use Rattle.area_core.specs.Journals.{Reads};
ghost use Rattle.area_core.specs.declared.version.Version.{Version};

/// An image has at most one reading: one version, one length of areas, one live area, one snapshot, the same blocks. The function does
/// nothing.
pub fn an_image_has_one_reading()
    ensures { (v w : Version) (a b i j : ℕ) (s t : List ℕ) (xs ys : List (List CommandValue)) (image : List ℕ) →
        Reads v a i s xs image → Reads w b j t ys image → (v ≡ w) × (a ≡ b) × (i ≡ j) × (s ≡ t) × (xs ≡ ys) }
{}

/// The bytes that a file's disk writes back with its first sync mean nothing: with any bytes in their place an image reads as the same journal.
/// The function does nothing.
pub fn bytes_that_are_written_back_are_not_read()
    ensures { (version : Version) (size selector : ℕ) (snapshot : List ℕ) (blocks : List (List CommandValue)) (image torn : List ℕ) → Torn SLACK_AT SLACK_BYTES image torn → Reads version size selector snapshot blocks image → Reads version size selector snapshot blocks torn }
{}
