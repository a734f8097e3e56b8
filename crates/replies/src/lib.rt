// The reply to a kind and the number that its body makes: the only place that joins the shapes of the kinds with the functions by bits. A
// kind has a function of its own here, whose contract is the kind's row, and an arm of `reply_to`.
#![tactic(auto)]

ghost use Rattle.std.specs.Prelude.{◌≡◌, ◌%◌, ◌^◌};
ghost use Rattle.kinds.specs.Shape.{sign_byte};
ghost use Rattle.replies.specs.Table.{reply_s};

use by_bits::{
    erf_bits, erf_erfc_bits, erfc_bits, erfcf_bits, erff_bits, lgamma_r_bits, lgammaf_r_bits,
    tgamma_bits, tgammaf_bits,
};
use kinds::sign_byte;
use records::Reply;

// A reply of one number.
fn number(head: u8, width: usize, bits: u64) -> Reply
    ensures { result ≡ record { head = head; width = width; bits = bits; more = 0; extra = 0 } }
{
    Reply {
        head,
        width,
        bits,
        more: 0,
        extra: 0,
    }
}

// A reply of one number and its sign.
fn signed_number(head: u8, width: usize, bits: u64, sign: i32) -> Reply
    ensures { result ≡ record { head = head; width = width; bits = bits; more = 1; extra = sign_byte sign } }
{
    Reply {
        head,
        width,
        bits,
        more: 1,
        extra: sign_byte(sign) as u64,
    }
}

// A reply of two numbers of one width.
fn two_numbers(head: u8, width: usize, bits: u64, extra: u64) -> Reply
    ensures { result ≡ record { head = head; width = width; bits = bits; more = width; extra = extra } }
{
    Reply {
        head,
        width,
        bits,
        more: width,
        extra,
    }
}

// The pattern of an f32, from the number of a body.
fn low_half(bits: u64) -> u32
    ensures { result ≡ bits % 256 ^ 4 }
{
    (bits % 0x1_0000_0000) as u32
}

fn tgamma_reply(bits: u64) -> Reply
    ensures { result ≡ reply_s 1 bits }
{
    number(129, 8, tgamma_bits(bits))
}

fn lgamma_r_reply(bits: u64) -> Reply
    ensures { result ≡ reply_s 2 bits }
{
    let t = lgamma_r_bits(bits);
    signed_number(130, 8, t.value, t.sign)
}

fn erf_reply(bits: u64) -> Reply
    ensures { result ≡ reply_s 3 bits }
{
    number(131, 8, erf_bits(bits))
}

fn erfc_reply(bits: u64) -> Reply
    ensures { result ≡ reply_s 4 bits }
{
    number(132, 8, erfc_bits(bits))
}

fn erf_erfc_reply(bits: u64) -> Reply
    ensures { result ≡ reply_s 7 bits }
{
    let t = erf_erfc_bits(bits);
    two_numbers(135, 8, t.erf, t.erfc)
}

fn lgammaf_r_reply(bits: u64) -> Reply
    ensures { result ≡ reply_s 17 bits }
{
    let t = lgammaf_r_bits(low_half(bits));
    signed_number(145, 4, t.value as u64, t.sign)
}

fn tgammaf_reply(bits: u64) -> Reply
    ensures { result ≡ reply_s 18 bits }
{
    number(146, 4, tgammaf_bits(low_half(bits)) as u64)
}

fn erff_reply(bits: u64) -> Reply
    ensures { result ≡ reply_s 19 bits }
{
    number(147, 4, erff_bits(low_half(bits)) as u64)
}

fn erfcf_reply(bits: u64) -> Reply
    ensures { result ≡ reply_s 20 bits }
{
    number(148, 4, erfcf_bits(low_half(bits)) as u64)
}

// The reply to a kind, of as many of the lowest bytes of `bits` as its body has.
pub fn reply_to(kind: u8, bits: u64) -> Reply
    ensures { result ≡ reply_s kind bits }
{
    match kind {
        1 => tgamma_reply(bits),
        2 => lgamma_r_reply(bits),
        3 => erf_reply(bits),
        4 => erfc_reply(bits),
        7 => erf_erfc_reply(bits),
        17 => lgammaf_r_reply(bits),
        18 => tgammaf_reply(bits),
        19 => erff_reply(bits),
        20 => erfcf_reply(bits),
        _ => number(0, 0, 0),
    }
}
