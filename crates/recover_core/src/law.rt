//! Laws of what an image stands for.

ghost use Rattle.std.specs.Prelude.{◌≡◌, ℕ, List, []};
ghost use Rattle.disk_core.specs.Images.{Torn};
ghost use Rattle.disk_core.specs.declared.file.TheConstants.{SLACK_AT, SLACK_BYTES};
ghost use Rattle.area_core.specs.Areas.{first_snapshot};
ghost use Rattle.area_core.specs.Journals.{Reads};
ghost use Rattle.area_core.specs.declared.version.Version.TheVariants.{Two};
ghost use Rattle.broker_core.specs.States.{State, empty_state};
ghost use Rattle.recover_core.specs.Standing.{Stands};

/// An image stands for at most one state. The function does nothing.
pub fn an_image_stands_for_one_state()
    ensures { (image : List ℕ) (s t : State) → Stands image s → Stands image t → s ≡ t }
{}

/// An image that reads as a new journal stands for the empty state. A new journal's first area is live, and has the first snapshot and no
/// block. So each image of a disk that was just formatted stands for the empty state. The function does nothing.
pub fn a_formatted_journal_stands_for_the_empty_state()
    ensures { (size : ℕ) (image : List ℕ) → Reads Two size 0 first_snapshot [] image → Stands image empty_state }
{}

/// The bytes that a file's disk writes back with its first sync mean nothing: a journal of either version, with any bytes in their place, stands
/// for the same state. So each image that this write may leave stands for what was there. The function does nothing.
pub fn bytes_that_are_written_back_mean_nothing()
    ensures { (image torn : List ℕ) (s : State) → Torn SLACK_AT SLACK_BYTES image torn → Stands image s → Stands torn s }
{}
