//! Which roots reach a block, and how that is stored.
ghost use Rattle.std.specs.Prelude.{◌≡◌, ◌≢◌, false, IfSome, IfNone, IsTrue};
ghost use Rattle.root_reach.specs.declared.origin.Origin.{Origin};
ghost use Rattle.root_reach.specs.declared.origin.Origin.TheVariants.{One};
ghost use Rattle.root_reach.specs.Origins.{origin_in, label_of, IsRoot, Covers, Joins};

/// Which roots reach a block as one of a kind.
#[derive(Clone, Copy, PartialEq, Eq, Debug)]
pub enum Origin {
    /// This root.
    One(u16),
    /// Two or more roots.
    Several,
}

impl Origin {
    /// What a label stands for: 0 for no root, 1 for several, and each further number for a root.
    pub fn unpack(label: u16) -> Option<Origin>
        ensures { result ≡ origin_in label }
    {
        match label {
            0 => None,
            1 => Some(Origin::Several),
            _ => Some(Origin::One(label - 2)),
        }
    }

    /// The label that stands for the origin.
    pub fn pack(self) -> u16
        requires { IsRoot self }
        ensures { result ≡ label_of self }
    {
        match self {
            Origin::One(root) => root + 2,
            Origin::Several => 1,
        }
    }

    /// What is to be told where this one comes to what was told before, if that is more.
    pub fn joined_to(self, told: Option<Origin>) -> Option<Origin>
        ensures some { IfSome result (Joins told self) }
        ensures none { IfNone result (Covers told self) }
    {
        match told {
            None => Some(self),
            Some(had) => self.joined_with(had),
        }
    }

    /// The same where this was told before.
    fn joined_with(self, had: Origin) -> Option<Origin>
        ensures some { IfSome result (Joins (Some had) self) }
        ensures none { IfNone result (Covers (Some had) self) }
    {
        match had {
            Origin::Several => None,
            Origin::One(root) => match self {
                Origin::One(other) if other == root => None,
                _ => Some(Origin::Several),
            },
        }
    }

    /// Whether another root than this one is told.
    pub fn is_beside(told: Option<Origin>, root: u16) -> bool
        ensures yes { IsTrue result → (origin : Origin) × (told ≡ Some origin)
            × (origin ≢ One root) }
        ensures no { result ≡ false → (origin : Origin) → told ≡ Some origin → origin ≡ One root }
    {
        match told {
            None => false,
            Some(Origin::Several) => true,
            Some(Origin::One(other)) => other != root,
        }
    }
}
