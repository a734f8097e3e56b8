// scalbn: x times 2^n, for every n. Where 2^n is no normal number n is taken in steps: above, x is first multiplied by 2^1023, once or twice;
// below, by 2^(-1022 + 53), once or twice. Then n is still below -53, so that a product which was rounded there vanishes in the last one, and
// nothing is rounded twice. What is left of n is cut to the exponents of the normal numbers. In f32 it is 2^127 and 2^(-126 + 24).
#![tactic(auto)]

pub mod real;

ghost use Rattle.std.specs.Prelude.{◌≡◌, true, false, ℤ};
ghost use Rattle.std.specs.Int.Signed.{lt_z};
ghost use Rattle.scalbn.specs.Scalbn.{exp_max, exp_min, power2, up_s, down_s, scalbn_s};

use real::Scale;

// 2^n.
fn power<R: Scale>(n: i32) -> R
    requires { (lt_z n (exp_min R.format) ≡ false) × (lt_z (exp_max R.format) n ≡ false) }
    ensures { R.float result ≡ power2 R.format n }
{
    R::from_field((R::EXP_MAX + n) as u32)
}

fn up<R: Scale>(x: R, n: i32) -> R
    requires { lt_z (exp_max R.format) n ≡ true }
    ensures { R.float result ≡ up_s R.format (R.float x) n }
{
    let max = R::EXP_MAX;
    let greatest = power(max);
    let x1 = x * greatest;
    let n1 = n - max;
    if n1 > max {
        let x2 = x1 * greatest;
        let n2 = n1 - max;
        if n2 > max {
            return x2 * greatest;
        }
        return x2 * power(n2);
    }
    x1 * power(n1)
}

fn down<R: Scale>(x: R, n: i32) -> R
    requires { lt_z n (exp_min R.format) ≡ true }
    ensures { R.float result ≡ down_s R.format (R.float x) n }
{
    let min = R::EXP_MIN;
    let bits = R::SIG_TOTAL_BITS;
    let least: R = power(min);
    let mul = least * power(bits);
    let add = -min - bits;
    let x1 = x * mul;
    let n1 = n + add;
    if n1 < min {
        let x2 = x1 * mul;
        let n2 = n1 + add;
        if n2 < min {
            return x2 * least;
        }
        return x2 * power(n2);
    }
    x1 * power(n1)
}

pub fn scalbn<R: Scale>(x: R, n: i32) -> R
    ensures { R.float result ≡ scalbn_s R.format (R.float x) n }
{
    if n > R::EXP_MAX {
        return up(x, n);
    }
    if n < R::EXP_MIN {
        return down(x, n);
    }
    x * power(n)
}
