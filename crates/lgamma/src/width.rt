// What log-gamma takes from a width: its constants and cuts, and the test for 1 and 2.
ghost use Rattle.std.specs.Prelude.{◌≡◌, ◌&&◌, ◌||◌, ℕ, Bool, Float, refl};
ghost use Rattle.words.specs.Tests.{◌=?◌};
ghost use Rattle.words.specs.Bits.{low_word_s};
ghost use Rattle.lgamma.specs.Plan.{Plan};
ghost use Rattle.lgamma.specs.PlanOf.{plan_of};
ghost use Rattle.lgamma.specs.declared.width.Constants.{Constants};

use logarithm::real::Log;
use sinpi::real::SinPi;
use whole::real::Whole;
use words::bits::get_low_word;

// What lgamma_r.rs and lgammaf_r.rs differ in.
#[derive(Drop)]
pub struct Constants<R: 'static> {
    // The cuts, as the size's word has them: not finite, tiny, 2, 8, 2^58.
    pub not_finite: u32,
    pub tiny: u32,
    pub at_2: u32,
    pub at_8: u32,
    pub at_2_58: u32,
    // And those below 2: 0.9 (the last one below it), and then by y.
    pub up_to_0_9: u32,
    pub at_0_7316: u32,
    pub at_0_2316: u32,
    pub at_1_7316: u32,
    pub at_1_2316: u32,
    // The literals that are not every width's.
    pub minus_half: R,
    pub three: R,
    pub four: R,
    pub five: R,
    pub six: R,
    pub pi: R,
    pub tc: R,
    pub tf: R,
    pub tt: R,
    // A0, A2, .. and A1, A3, ..; T0, T3, ..; T1, T4, ..; T2, T5, ..
    pub a_even: &'static [R],
    pub a_odd: &'static [R],
    pub t_0: &'static [R],
    pub t_1: &'static [R],
    pub t_2: &'static [R],
    // U0, ..; 1.0, V1, ..; S0, ..; 1.0, R1, ..
    pub u: &'static [R],
    pub v: &'static [R],
    pub s: &'static [R],
    pub r: &'static [R],
    // W0; W1, ..
    pub w0: R,
    pub w: &'static [R],
}

pub trait LogGamma: Log + SinPi + Whole {
    ghost is_one_or_two: { ℕ → Float → Bool };

    // The plan that constants make.
    ghost plan: { Constants Self → Plan };

    // Whether x is exactly 1 or 2, by ix and its other bits.
    fn is_one_or_two(ix: u32, x: Self) -> bool
        ensures { result ≡ is_one_or_two ix (Self.float x) };

    ghost plan_law: { (c : Constants Self) → plan c
        ≡ plan_of Self.format Self.float Self.ZERO Self.HALF Self.ONE Self.TWO Self.word Self.log Self.sinpi is_one_or_two c };
}

impl LogGamma for f64 {
    ghost is_one_or_two = { λ ix x. (ix =? 0x3FF00000 || ix =? 0x40000000) && low_word_s x =? 0 };

    ghost plan = { plan_of Self.format Self.float Self.ZERO Self.HALF Self.ONE Self.TWO Self.word Self.log Self.sinpi (λ ix x. (ix =? 0x3FF00000 || ix =? 0x40000000) && low_word_s x =? 0) };

    fn is_one_or_two(ix: u32, x: f64) -> bool {
        (ix == 0x3ff00000 || ix == 0x40000000) && get_low_word(x) == 0
    }

    ghost plan_law = { λ c. refl };
}

impl LogGamma for f32 {
    ghost is_one_or_two = { λ ix x. ix =? 0x3F800000 || ix =? 0x40000000 };

    ghost plan = { plan_of Self.format Self.float Self.ZERO Self.HALF Self.ONE Self.TWO Self.word Self.log Self.sinpi (λ ix x. ix =? 0x3F800000 || ix =? 0x40000000) };

    fn is_one_or_two(ix: u32, x: f32) -> bool {
        ix == 0x3f800000 || ix == 0x40000000
    }

    ghost plan_law = { λ c. refl };
}
