// A score: a candidate with its neighbours and its area. Made, compared and demoted by value.
#![tactic(auto)]

ghost use Rattle.std.specs.Prelude.{◌≡◌};
ghost use Rattle.vscore.specs.Score.{score, sooner, demoted_by};

#[derive(Clone, Copy)]
pub struct VScore {
    pub left: u32,
    pub current: u32,
    pub right: u32,
    pub area: f64,
}

impl VScore {
    pub fn new(left: u32, current: u32, right: u32, area: f64) -> VScore
        ensures { result ≡ score left current right area }
    {
        VScore {
            left,
            current,
            right,
            area,
        }
    }

    // By area, then by the lower index.
    #[tactic(auto, unfolding(crate::specs::Score::sooner))]
    pub fn sooner(self, other: VScore) -> bool
        ensures { result ≡ sooner self other }
    {
        self.area < other.area || (self.area == other.area && self.current < other.current)
    }

    // The score with minus the tolerance as its area.
    pub fn demoted(self, tolerance: f64) -> VScore
        ensures { result ≡ demoted_by tolerance self }
    {
        VScore {
            area: -tolerance,
            ..self
        }
    }
}
