//! How the box of a row may lie to a window.

ghost use Rattle.rt_calls.specs.Relations.{IsNumberOfRelation};

/// How the box of a row lies to a window. Both ends belong to each.
#[derive(Clone, Copy, Debug, PartialEq, Eq)]
pub enum Relation {
    /// They have a point in common.
    Touches,
    /// Each point of the row's box lies in the window.
    Within,
    /// Each point of the window lies in the row's box.
    Holds,
}

impl Relation {
    /// The relation with that number in C.
    pub fn from_number(number: u32) -> Option<Relation>
        ensures { IsNumberOfRelation number result }
    {
        match number {
            0 => Some(Relation::Touches),
            1 => Some(Relation::Within),
            2 => Some(Relation::Holds),
            _ => None,
        }
    }
}
