// pow: x to the power of y, after FreeBSD's msun: 2^(y log2|x|), with log2|x| in two parts (pow_log), the product in two parts and 2 to its power
// (pow_exp). msun calls the answer nearly rounded. Here are the special cases, in the Rust's order: y = 0 and x = 1 give 1; a NaN; y infinite,
// +-1, 2 or 0.5; x = +-0, +-inf or +-1; x < 0, where a y that is no whole number gives NaN and an odd one a minus sign; |y| beyond 2^31, where
// all but an x close to 1 overflows or vanishes.
#![tactic(auto)]

ghost use Rattle.std.specs.Prelude.{◌≡◌, true, not, ◌&&◌, ◌||◌, ◌%◌, ◌^◌, ◌<◌, Float, if◌then◌else◌};
ghost use Rattle.words.specs.F64.{1·0, -1·0};
ghost use Rattle.words.specs.Tests.{◌<?◌, ◌>?◌, ◌≤?◌, ◌=?◌, ◌≠?◌};
ghost use Rattle.pow_log.specs.Log2.{near_one_s, log2_s};
ghost use Rattle.words.specs.Bits.{high_word_s, low_word_s};
ghost use Rattle.pow.specs.Pow.{number_of, negative, nan_words, parity_s, yisint_s, huge_s, signed_s, plain_s, turned_s, special_x_s, finite_s, infinite_s, special_y_s, pow_at_s, pow_s};

use pow_exp::{HUGE, TINY, product};
use pow_log::{Parts, log2, near_one};
use sqrt::sqrt;
use words::bits::{get_high_word, get_low_word};
use words::fabs::fabs;

const NEG_ONE: f64 = -1.0;

// A number and its words.
#[derive(Clone, Copy)]
struct Words {
    value: f64,
    high: u32,
    low: u32,
}

impl Words {
    fn of(value: f64) -> Words
        ensures { (result.value ≡ value) × (result.high ≡ high_word_s value) × (result.low ≡ low_word_s value) }
    {
        Words {
            value,
            high: get_high_word(value),
            low: get_low_word(value),
        }
    }

    // The high word of the size.
    fn size_word(self) -> u32
        ensures { result ≡ self.high % 2 ^ 31 }
    {
        self.high % 0x8000_0000
    }

    fn is_negative(self) -> bool
        ensures { result ≡ negative self.high }
    {
        self.high >= 0x8000_0000
    }

    fn is_one(self) -> bool
        ensures { result ≡ (self.high =? 0x3FF00000 && self.low =? 0) }
    {
        self.high == 0x3ff0_0000 && self.low == 0
    }

    // +-0
    fn is_zero(self) -> bool
        ensures { result ≡ (self.high % 2 ^ 31 =? 0 && self.low =? 0) }
    {
        self.size_word() == 0 && self.low == 0
    }

    fn is_nan(self) -> bool
        ensures { result ≡ nan_words (self.high % 2 ^ 31) self.low }
    {
        let h = self.size_word();
        h > 0x7ff0_0000 || h == 0x7ff0_0000 && self.low != 0
    }

    // +-0, +-inf, +-1
    fn is_special(self) -> bool
        ensures { result ≡ (self.low =? 0 && (self.high % 2 ^ 31 =? 0x7FF00000 || self.high % 2 ^ 31 =? 0 || self.high % 2 ^ 31 =? 0x3FF00000)) }
    {
        let h = self.size_word();
        self.low == 0 && (h == 0x7ff0_0000 || h == 0 || h == 0x3ff0_0000)
    }
}

// Whether a number is whole, and then odd or even. `number_of` has the numbers that the Rust has for it.
#[derive(Clone, Copy, PartialEq, Eq)]
enum Whole {
    No,
    Odd,
    Even,
}

// Of w / 2^d.
#[tactic(auto, using(pow_exp::proofs::Half::cut_back), unfolding(crate::specs::Pow::parity_s))]
fn parity(w: u32, d: u32) -> Whole
    requires { d < 32 }
    ensures { number_of result ≡ parity_s w d }
{
    let j = w >> d;
    if j << d != w {
        return Whole::No;
    }
    if j % 2 == 1 { Whole::Odd } else { Whole::Even }
}

// Of y, when x < 0; else it is not asked.
#[tactic(auto, unfolding(crate::specs::Pow::yisint_s))]
fn yisint(x: Words, y: Words) -> Whole
    ensures { number_of result ≡ yisint_s x.high (y.high % 2 ^ 31) y.low }
{
    let iy = y.size_word();
    if !x.is_negative() || iy < 0x3ff0_0000 {
        return Whole::No;
    }
    if iy >= 0x4340_0000 {
        return Whole::Even;
    }
    let k = iy / 0x10_0000 - 0x3ff;
    if k > 20 {
        return parity(y.low, 52 - k);
    }
    if y.low == 0 {
        return parity(iy, 20 - k);
    }
    Whole::No
}

// Whether |y| is HUGE and x not close enough to 1: x^y is beyond the range, up or down.
fn is_far(ix: u32, hy: u32) -> bool
    ensures { result ≡ (hy % 2 ^ 31 >? 0x41E00000 && (hy % 2 ^ 31 >? 0x43F00000 || ix <? 0x3FEFFFFF || ix >? 0x3FF00000)) }
{
    let iy = hy % 0x8000_0000;
    iy > 0x41e0_0000 && (iy > 0x43f0_0000 || ix < 0x3fef_ffff || ix > 0x3ff0_0000)
}

// What x^y is there, whatever the rest of ax and y.
#[tactic(auto, unfolding(crate::specs::Pow::huge_s))]
fn far(s: f64, ix: u32, hy: u32) -> f64
    requires { (hy % 2 ^ 31 >? 0x41E00000 && (hy % 2 ^ 31 >? 0x43F00000 || ix <? 0x3FEFFFFF || ix >? 0x3FF00000)) ≡ true }
    ensures { (ax y : Float) → result ≡ huge_s s ax y ix hy }
{
    if hy % 0x8000_0000 > 0x43f0_0000 {
        // |y| > 2^64
        if ix <= 0x3fef_ffff {
            return if hy >= 0x8000_0000 {
                HUGE * HUGE
            } else {
                TINY * TINY
            };
        }
        return if hy < 0x8000_0000 {
            HUGE * HUGE
        } else {
            TINY * TINY
        };
    }
    if ix < 0x3fef_ffff {
        return if hy >= 0x8000_0000 {
            s * HUGE * HUGE
        } else {
            s * TINY * TINY
        };
    }
    if hy < 0x8000_0000 {
        s * HUGE * HUGE
    } else {
        s * TINY * TINY
    }
}

// log2 of ax, for a HUGE |y| of an ax close to 1.
fn log_of(ax: f64, ix: u32, hy: u32) -> Parts
    ensures { result ≡ (if hy % 2 ^ 31 >? 0x41E00000 then near_one_s ax else log2_s ax ix) }
{
    if hy % 0x8000_0000 > 0x41e0_0000 {
        return near_one(ax);
    }
    log2(ax, ix)
}

// s times ax to the power of y, where neither is special. It takes the words ix and hy, since ax is a size, whose words are not those of x. log_of stands between so that `product`, the second half of pow, is called once.
#[tactic(auto, using(crate::proofs::FarLaws::near), unfolding(crate::specs::Pow::signed_s))]
fn signed(s: f64, ax: f64, y: f64, ix: u32, hy: u32) -> f64
    ensures { result ≡ signed_s s ax y ix hy }
{
    if is_far(ix, hy) {
        return far(s, ix, hy);
    }
    product(s, y, log_of(ax, ix, hy))
}

// The sign of the result: minus for x < 0 and an odd y.
fn sign_of(x: Words, yisint: Whole) -> f64
    ensures { result ≡ (if negative x.high && number_of yisint =? 1 then -1·0 else 1·0) }
{
    if x.is_negative() && yisint == Whole::Odd {
        NEG_ONE
    } else {
        1.0
    }
}

#[tactic(auto, unfolding(crate::specs::Pow::plain_s))]
fn plain(x: Words, y: Words, yisint: Whole) -> f64
    ensures { result ≡ plain_s x.value y.value x.high y.high (number_of yisint) }
{
    if x.is_negative() && yisint == Whole::No {
        return (x.value - x.value) / (x.value - x.value);
    }
    signed(
        sign_of(x, yisint),
        fabs(x.value),
        y.value,
        x.size_word(),
        y.high,
    )
}

// The sign of a power z of +-0, +-inf, +-1.
#[tactic(auto, unfolding(crate::specs::Pow::turned_s))]
fn turned(z: f64, x: Words, yisint: Whole) -> f64
    ensures { result ≡ turned_s z x.high (number_of yisint) }
{
    if !x.is_negative() {
        return z;
    }
    match yisint {
        // (-1)**non-int is NaN
        Whole::No if x.high == 0xbff0_0000 => (z - z) / (z - z),
        Whole::Odd => -z,
        _ => z,
    }
}

// x is +-0, +-inf, +-1.
#[tactic(auto, unfolding(crate::specs::Pow::special_x_s))]
fn special_x(x: Words, y: Words, yisint: Whole) -> f64
    ensures { result ≡ special_x_s x.value x.high y.high (number_of yisint) }
{
    if y.is_negative() {
        return turned(1.0 / fabs(x.value), x, yisint);
    }
    turned(fabs(x.value), x, yisint)
}

#[tactic(auto, unfolding(crate::specs::Pow::finite_s))]
fn finite(x: Words, y: Words) -> f64
    ensures { result ≡ finite_s x.value y.value x.high x.low y.high y.low }
{
    let yisint = yisint(x, y);
    if x.is_special() {
        return special_x(x, y, yisint);
    }
    plain(x, y, yisint)
}

// y is +-inf.
#[tactic(auto, unfolding(crate::specs::Pow::infinite_s))]
fn infinite(x: Words, y: Words) -> f64
    ensures { result ≡ infinite_s y.value (x.high % 2 ^ 31) x.low y.high }
{
    let ix = x.size_word();
    if ix == 0x3ff0_0000 && x.low == 0 {
        // (-1)**+-inf is 1
        return 1.0;
    }
    if ix >= 0x3ff0_0000 {
        // (|x|>1)**+-inf = inf,0
        return if y.is_negative() { 0.0 } else { y.value };
    }
    // (|x|<1)**+-inf = 0,inf
    if y.is_negative() { -y.value } else { 0.0 }
}

#[tactic(auto, unfolding(crate::specs::Pow::special_y_s))]
fn special_y(x: Words, y: Words) -> f64
    ensures { result ≡ special_y_s x.value y.value x.high x.low y.high y.low }
{
    match (y.high, y.low) {
        (0x7ff0_0000 | 0xfff0_0000, 0) => infinite(x, y),
        (0x3ff0_0000, 0) => x.value,
        (0xbff0_0000, 0) => 1.0 / x.value,
        (0x4000_0000, 0) => x.value * x.value,
        (0x3fe0_0000, 0) if !x.is_negative() => sqrt(x.value),
        _ => finite(x, y),
    }
}

#[tactic(auto, unfolding(crate::specs::Pow::pow_at_s))]
fn pow_at(x: Words, y: Words) -> f64
    ensures { result ≡ pow_at_s x.value y.value x.high x.low y.high y.low }
{
    if y.is_zero() || x.is_one() {
        // x**0 = 1, even if x is NaN, and 1**y = 1, even if y is NaN
        return 1.0;
    }
    if x.is_nan() || y.is_nan() {
        return x.value + y.value;
    }
    special_y(x, y)
}

// Whether 1 < x < inf and |y| <= 2^31, and y has digits in its low word: none of the special cases.
fn is_usual(x: Words, y: Words) -> bool
    ensures { result ≡ (x.high >? 0x3FF00000 && x.high <? 0x7FF00000 && y.low ≠? 0 && y.high % 2 ^ 31 ≤? 0x41E00000) }
{
    x.high > 0x3ff0_0000 && x.high < 0x7ff0_0000 && y.low != 0 && y.size_word() <= 0x41e0_0000
}

// What is none of the special cases, as it is nearly always, does not pass through their tests.
#[tactic(auto, using(crate::proofs::Courses::usual), unfolding(crate::specs::Pow::pow_s))]
pub fn pow(x: f64, y: f64) -> f64
    ensures { result ≡ pow_s x y }
{
    let x = Words::of(x);
    let y = Words::of(y);
    if is_usual(x, y) {
        return signed(1.0, x.value, y.value, x.high, y.high);
    }
    pow_at(x, y)
}
