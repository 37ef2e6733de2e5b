//! The heights that trees have (RFC 8554 5.1).

ghost use Rattle.std.specs.Prelude.{◌≡◌, ◌≢◌, IfNone, IfSome};

/// How high a tree is.
#[derive(Clone, Copy, Debug, PartialEq, Eq)]
pub enum Height {
    /// LMS_SHA256_M32_H5: 32 leaves.
    H5,
}

impl Height {
    ghost use Rattle.dv_lms.specs.declared.height.Height.{Height};
    ghost use Rattle.dv_lms.specs.Height.{leaf_count, levels, lms_type};

    /// How many leaves a tree has: so many messages its key signs.
    pub fn leaves(self) -> u32
        ensures { result ≡ leaf_count self }
    {
        1 << self.levels()
    }

    /// How many levels of nodes stand above the leaves.
    pub fn levels(self) -> u32
        ensures { result ≡ levels self }
    {
        match self {
            Height::H5 => 5,
        }
    }

    /// The LMS type, which says the height in keys and signatures.
    pub fn lms_type(self) -> u32
        ensures { result ≡ lms_type self }
    {
        match self {
            Height::H5 => 5,
        }
    }

    /// The height of this LMS type.
    pub fn from_lms_type(code: u32) -> Option<Height>
        ensures known { IfSome result (λ height. lms_type height ≡ code) }
        ensures unknown { IfNone result ((height : Height) → lms_type height ≢ code) }
    {
        match code {
            5 => Some(Height::H5),
            _ => None,
        }
    }
}
