// Step 7: the configuration factor of a vertical, a horizontal or the tilted face, at any height of the target.
// What depends on e alone is worked once for all factors of a target, and u, v and A once for both faces.
ghost use Rattle.std.specs.Prelude.{◌≡◌, true, false};
ghost use Rattle.std.specs.Int.Signed.{non_neg};
ghost use Rattle.pairs.specs.Answers.{answers};
ghost use Rattle.pairs.specs.Series.{atan};
ghost use Rattle.chain.specs.Chain as chain;
ghost use Rattle.chain.specs.Factor as alone;
ghost use Rattle.chain.specs.Private.{Spaced, face_number};

use super::allowed::outside;
use super::answer::Answer;
use super::enquiry::Outside;
use super::kinds::Face;
use pairs::answer::Pair;

// Heights from the base, in radii: l of the flame's top, and h, the magnitude of the target's.
#[derive(Clone, Copy)]
pub(crate) struct Heights {
    pub(crate) l: Answer,
    pub(crate) h: Answer,
}

// What every face needs of e: g·g, e·e, e·g and r = root(e/g). The distance is as wide as the diameter allows.
#[derive(Clone, Copy)]
struct Distance {
    e: Answer,
    gg: Answer,
    ee: Answer,
    eg: Answer,
    r: Answer,
    ghost spaced: { Spaced e },
    ghost gg_is: { gg ≡ answers.product (chain.g answers e) (chain.g answers e) },
    ghost ee_is: { ee ≡ answers.product e e },
    ghost eg_is: { eg ≡ answers.product e (chain.g answers e) },
    ghost r_is: { r ≡ chain.r answers e },
}

// What the vertical face needs of e besides: x, x·x, atan(r) and root(e·g).
#[derive(Clone, Copy)]
struct Upright {
    distance: Distance,
    x: Answer,
    xx: Answer,
    angle: Answer,
    root: Answer,
    ghost x_is: { x ≡ chain.x answers distance.e },
    ghost xx_is: { xx ≡ answers.product (chain.x answers distance.e) (chain.x answers distance.e) },
    ghost angle_is: { angle ≡ atan answers (chain.r answers distance.e) },
    ghost root_is: { root ≡ answers.root (answers.product distance.e (chain.g answers distance.e)) },
}

// What the horizontal face needs of e besides: atan(root(g/e)).
#[derive(Clone, Copy)]
struct Level {
    distance: Distance,
    angle: Answer,
    ghost angle_is: { angle ≡ atan answers (answers.root (answers.quotient (chain.g answers distance.e) distance.e)) },
}

// What both faces need of y in l's place: y·y, u·v and A = atan((r·u)/v).
#[derive(Clone, Copy)]
struct Seen {
    e: Answer,
    y: Answer,
    yy: Answer,
    product: Answer,
    tilt: Answer,
    ghost yy_is: { yy ≡ answers.product y y },
    ghost product_is: { product ≡ answers.product (chain.u answers y e) (chain.v answers y e) },
    ghost tilt_is: { tilt ≡ chain.tilt answers y e },
}

// g = e+2.
#[tactic(auto, unfolding(crate::specs::Chain::g, pairs::specs::Answers::constant, pairs::specs::Answers::fitting, pairs::specs::Rounded::constant))]
fn g_of(e: Answer) -> Answer
    ensures { result ≡ chain.g answers e }
{
    e + Answer::exact(2_000_000_000_000)
}

impl Distance {
    #[tactic(auto, unfolding(crate::specs::Chain::r))]
    fn new(e: Answer) -> Distance
        requires { Spaced e }
        ensures { result.e ≡ e }
    {
        let g = g_of(e);
        Distance {
            e,
            gg: g * g,
            ee: e * e,
            eg: e * g,
            r: (e / g).root(),
        }
    }

    #[tactic(auto, unfolding(crate::specs::Chain::x, pairs::specs::Answers::constant, pairs::specs::Answers::fitting, pairs::specs::Rounded::constant))]
    fn upright(&self) -> Upright
        ensures { result.distance ≡ self.now }
    {
        let x = Answer::exact(1_000_000_000_000) + self.e;
        Upright {
            distance: *self,
            x,
            xx: x * x,
            angle: self.r.atan(),
            root: self.eg.root(),
        }
    }

    fn level(&self) -> Level
        ensures { result.distance ≡ self.now }
    {
        Level {
            distance: *self,
            angle: (g_of(self.e) / self.e).root().atan(),
        }
    }

    #[tactic(auto, unfolding(crate::specs::Chain::u, crate::specs::Chain::v, crate::specs::Chain::tilt))]
    fn seen_at(&self, y: Answer) -> Seen
        ensures { (result.e ≡ self.now.e) × (result.y ≡ y) }
    {
        let yy = y * y;
        let u = (yy + self.gg).root();
        let v = (yy + self.ee).root();
        Seen {
            e: self.e,
            y,
            yy,
            product: u * v,
            tilt: (self.r * u / v).atan(),
        }
    }
}

impl Upright {
    // atan(y/root(e·g))/x.
    #[tactic(auto, unfolding(crate::specs::Chain::height_angle))]
    fn height_angle(&self, y: Answer) -> Answer
        ensures { result ≡ chain.height_angle answers y self.now.distance.e }
    {
        (y / self.root).atan() / self.x
    }

    // The vertical face (B.2). That what is seen is at this distance relates the two, and is no fact of either.
    #[tactic(auto, unfolding(crate::specs::Chain::vertical, crate::specs::Chain::vertical_ratio, pairs::specs::Answers::constant, pairs::specs::Answers::fitting, pairs::specs::Rounded::constant))]
    fn vertical(&self, seen: &Seen) -> Answer
        requires { seen.now.e ≡ self.now.distance.e }
        ensures { result ≡ chain.vertical answers seen.now.y self.now.distance.e }
    {
        let slope = seen.y / self.x;
        let ratio = (seen.yy + self.xx + Answer::exact(1_000_000_000_000)) / seen.product;
        let facing = self.height_angle(seen.y) + slope * ratio * seen.tilt;
        (facing - slope * self.angle) / Answer::pi()
    }

    // The vertical face at y: that of [0, 0] is [0, 0] and is not worked.
    #[tactic(auto, using(crate::proofs::Level::vertical_answer_of_0))]
    fn vertical_at(&self, y: Answer) -> Answer
        ensures { result ≡ chain.vertical answers y self.now.distance.e }
    {
        if y.is_zero() {
            return y;
        }
        self.vertical(&self.distance.seen_at(y))
    }

    // f(h) + f(l-h) - f(h-l), from f(l-h).
    #[tactic(auto, unfolding(crate::specs::Chain::vertical_above))]
    fn vertical_above(&self, between: Answer, heights: &Heights) -> Answer
        requires { between ≡ chain.vertical answers (answers.difference heights.now.l heights.now.h) self.now.distance.e }
        ensures { result ≡ chain.vertical_above answers heights.now.l heights.now.h self.now.distance.e }
    {
        self.vertical_at(heights.h) + between - self.vertical_at(heights.h - heights.l)
    }
}

impl Level {
    // The horizontal face, looking up (B.4).
    #[tactic(auto, unfolding(crate::specs::Chain::horizontal, crate::specs::Chain::horizontal_ratio))]
    fn horizontal(&self, seen: &Seen) -> Answer
        requires { seen.now.e ≡ self.now.distance.e }
        ensures { result ≡ chain.horizontal answers seen.now.y self.now.distance.e }
    {
        let ratio = (seen.yy + self.distance.eg) / seen.product;
        (self.angle - ratio * seen.tilt) / Answer::pi()
    }
}

// The tilted face: root(Fv·Fv + Fh·Fh). It is the most exposed one of a target at or below the base; above it Fh looks up only.
#[tactic(auto, unfolding(crate::specs::Chain::most_exposed))]
fn most_exposed(upright: Answer, level: Answer) -> Answer
    ensures { result ≡ chain.most_exposed answers upright level }
{
    (upright * upright + level * level).root()
}

impl Distance {
    // A target from the base up.
    #[tactic(auto, unfolding(crate::specs::Chain::factor_at, crate::specs::Chain::by_face, crate::specs::Chain::horizontal_above))]
    fn factor_above(&self, face: Face, heights: &Heights) -> Answer
        ensures { result ≡ chain.factor_at answers true (face_number face) heights.now.l heights.now.h self.now.e }
    {
        let between = heights.l - heights.h;
        match face {
            Face::Vertical => {
                let up = self.upright();
                up.vertical_above(up.vertical_at(between), heights)
            }
            Face::Horizontal => self.level().horizontal(&self.seen_at(between)),
            Face::Tilted => {
                let seen = self.seen_at(between);
                let up = self.upright();
                most_exposed(
                    up.vertical_above(up.vertical(&seen), heights),
                    self.level().horizontal(&seen),
                )
            }
        }
    }

    // A target below the base: f(l+h) - f(h).
    #[tactic(auto, unfolding(crate::specs::Chain::factor_at, crate::specs::Chain::by_face, crate::specs::Chain::vertical_below, crate::specs::Chain::horizontal_below))]
    fn factor_below(&self, face: Face, heights: &Heights) -> Answer
        ensures { result ≡ chain.factor_at answers false (face_number face) heights.now.l heights.now.h self.now.e }
    {
        let top = self.seen_at(heights.l + heights.h);
        let base = self.seen_at(heights.h);
        match face {
            Face::Vertical => {
                let up = self.upright();
                up.vertical(&top) - up.vertical(&base)
            }
            Face::Horizontal => {
                let level = self.level();
                level.horizontal(&top) - level.horizontal(&base)
            }
            Face::Tilted => {
                let up = self.upright();
                let level = self.level();
                most_exposed(
                    up.vertical(&top) - up.vertical(&base),
                    level.horizontal(&top) - level.horizontal(&base),
                )
            }
        }
    }
}

// The factor of a face at a height, from the base up or below it.
pub(crate) fn factor_at(height: i32, face: Face, heights: &Heights, e: Answer) -> Answer
    requires { Spaced e }
    ensures { result ≡ chain.factor_at answers (non_neg height) (face_number face) heights.now.l heights.now.h e }
{
    let distance = Distance::new(e);
    if 0 <= height {
        distance.factor_above(face, heights)
    } else {
        distance.factor_below(face, heights)
    }
}

// The factor from l and e in trillionths, with limits of its own: that of a target level with the base.
#[tactic(auto, unfolding(crate::specs::Factor::factor_of, crate::specs::Factor::factor_tests))]
pub fn factor(l: u64, e: u64, face: u8) -> Result<Pair, Outside>
    ensures { alone.figures result ≡ alone.factor_of l e face }
{
    if outside(l, 0, 40_000_000_000_000) {
        return Err(Outside::Height);
    }
    if outside(e, 40_000_000_000, 400_000_000_000_000) {
        return Err(Outside::Distance);
    }
    let face = Face::try_from(face).or(Err(Outside::Face))?;
    let heights = Heights {
        l: Answer::exact(l),
        h: Answer::exact(0),
    };
    let factor = factor_at(0, face, &heights, Answer::exact(e));
    Ok(factor.pair())
}
