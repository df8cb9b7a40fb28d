//! The versions of areas.

ghost use Rattle.std.specs.Prelude.{◌≡◌, ◌≢◌, IfSome, None};
ghost use Rattle.area_core.specs.Areas.{highest, number};
ghost use Rattle.area_core.specs.declared.version.Version.{Version};

/// The version of an area, which the area's first byte gives.
#[derive(Clone, Copy)]
pub enum Version {
    /// The area's blocks are of a build whose NACK drops the message. This version is read, and never written.
    One,
    /// A NACK keeps the message.
    Two,
}

impl Version {
    /// Its number: 1 or 2.
    pub fn number(self) -> u8
        ensures { result ≡ number self }
    {
        match self {
            Version::One => 1,
            Version::Two => 2,
        }
    }

    // The byte that its areas begin with.
    pub(crate) fn highest(self) -> u8
        ensures { result ≡ highest self }
    {
        match self {
            Version::One => 0,
            Version::Two => 2,
        }
    }

    // The version of the areas that begin with that byte.
    pub(crate) fn of(byte: u64) -> Option<Version>
        ensures some { IfSome result (λ version. byte ≡ highest version) }
        ensures none { result ≡ None → (version : Version) → byte ≢ highest version }
    {
        match byte {
            0 => Some(Version::One),
            2 => Some(Version::Two),
            _ => None,
        }
    }
}
