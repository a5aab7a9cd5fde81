// A matrix's weights, and the luma and colour differences that they give.
ghost use Rattle.std.specs.Prelude.{◌≡◌};
ghost use Rattle.fill.specs.Fill.{weights_from, weights_of, luma_of, cb_of, cr_of, difference_of};

// The weights of red and blue, and green's worked from them.
#[derive(Clone, Copy)]
pub struct Weights {
    pub kr: f64,
    pub kb: f64,
    pub kg: f64,
}

impl Weights {
    fn new(kr: f64, kb: f64) -> Weights
        ensures { result ≡ weights_from kr kb }
    {
        Weights {
            kr,
            kb,
            kg: 1.0 - kr - kb,
        }
    }

    // The weights of a matrix other than 0.
    pub fn of(matrix: u16) -> Weights
        ensures { result ≡ weights_of matrix }
    {
        match matrix {
            1 => Weights::new(0.2126, 0.0722),
            4 => Weights::new(0.30, 0.11),
            7 => Weights::new(0.212, 0.087),
            9 | 10 => Weights::new(0.2627, 0.0593),
            _ => Weights::new(0.299, 0.114),
        }
    }

    #[tactic(auto, unfolding(crate::specs::Fill::luma_of))]
    pub fn luma(self, r: f64, g: f64, b: f64) -> f64
        ensures { result ≡ luma_of self r g b }
    {
        self.kr * r + self.kg * g + self.kb * b
    }

    // Blue's difference from the luma.
    #[tactic(auto, unfolding(crate::specs::Fill::cb_of))]
    pub fn cb(self, b: f64, y: f64) -> f64
        ensures { result ≡ cb_of self b y }
    {
        difference(b, y, self.kb)
    }

    // Red's difference from the luma.
    #[tactic(auto, unfolding(crate::specs::Fill::cr_of))]
    pub fn cr(self, r: f64, y: f64) -> f64
        ensures { result ≡ cr_of self r y }
    {
        difference(r, y, self.kr)
    }
}

// A colour's difference from the luma, under its weight.
fn difference(v: f64, y: f64, weight: f64) -> f64
    ensures { result ≡ difference_of v y weight }
{
    (v - y) / (2.0 * (1.0 - weight))
}
