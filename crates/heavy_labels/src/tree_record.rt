ghost use Rattle.std.specs.Prelude.{◌≡◌, ◌==◌, ◌↔◌, is_none, IfSome, IsSome};

/// A member's record in a tree. That the heavy port is there exactly where the member has members below it is part of
/// the type.
#[derive(Clone, Copy, PartialEq, Eq, Debug)]
pub struct Record {
    /// The member's number in preorder, counted from 0 at the root.
    pub first: u16,
    /// The greatest number among the member and all below it.
    pub last: u16,
    /// The greatest number below the heavy child, or `first` where there is no child.
    pub heavy_last: u16,
    /// How many edges on the way from the root to the member are light.
    pub light_depth: u8,
    /// The port to the parent, none at the root.
    pub parent_port: Option<u16>,
    /// The port to the heavy child.
    pub heavy_port: Option<u16>,
    ghost heavy_port_there: { is_none heavy_port ≡ (first == last) },
}

impl Record {
    ghost use Rattle.heavy_labels.specs.Stepped.{record_of};

    /// The record of these fields, or none where the heavy port is there though `first` is `last`, or isn't though it
    /// is not.
    pub fn new(
        first: u16,
        last: u16,
        heavy_last: u16,
        light_depth: u8,
        parent_port: Option<u16>,
        heavy_port: Option<u16>,
    ) -> Option<Record>
        ensures made { IfSome result (λ r. record_of r
            ≡ record {
              first = first;
              last = last;
              heavy_last = heavy_last;
              light_depth = light_depth;
              parent_port = parent_port;
              heavy_port = heavy_port;
            }) }
        ensures exact { IsSome result ↔ (is_none heavy_port ≡ (first == last)) }
    {
        if heavy_port.is_none() == (first == last) {
            Some(Record {
                first,
                last,
                heavy_last,
                light_depth,
                parent_port,
                heavy_port,
            })
        } else {
            None
        }
    }
}
