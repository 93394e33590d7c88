// The whole calls.
ghost use Rattle.std.specs.Prelude.{◌≡◌};
ghost use Rattle.vectors.specs.Listed.{call_of};

use std::fmt;

#[derive(Clone, Copy, PartialEq)]
pub enum Call {
    SimplifyVwIdx,
    SimplifyVw,
    SimplifyVwPreserve,
    SimplifyVwPreservePolygon,
    RemoveRepeatedPoints,
    RemoveRepeatedPointsAnywhere,
}

impl Call {
    pub const ALL: [Call; 6] = [
        Call::SimplifyVwIdx,
        Call::SimplifyVw,
        Call::SimplifyVwPreserve,
        Call::SimplifyVwPreservePolygon,
        Call::RemoveRepeatedPoints,
        Call::RemoveRepeatedPointsAnywhere,
    ];

    // By its number in the list.
    pub fn of(number: u32) -> Option<Call>
        ensures { result ≡ call_of number }
    {
        match number {
            1 => Some(Call::SimplifyVwIdx),
            2 => Some(Call::SimplifyVw),
            3 => Some(Call::SimplifyVwPreserve),
            4 => Some(Call::SimplifyVwPreservePolygon),
            5 => Some(Call::RemoveRepeatedPoints),
            6 => Some(Call::RemoveRepeatedPointsAnywhere),
            _ => None,
        }
    }
}

impl fmt::Display for Call {
    fn fmt<W: fmt::Write>(&self, f: &mut fmt::Formatter<W>) -> fmt::Result {
        f.write_str(match self {
            Call::SimplifyVwIdx => "simplify_vw_idx",
            Call::SimplifyVw => "simplify_vw",
            Call::SimplifyVwPreserve => "simplify_vw_preserve",
            Call::SimplifyVwPreservePolygon => "simplify_vw_preserve_polygon",
            Call::RemoveRepeatedPoints => "remove_repeated_points",
            Call::RemoveRepeatedPointsAnywhere => "remove_repeated_points_anywhere",
        })
    }
}
