// The C entries: numbers and byte slices only. A function's entry takes the argument's bits and gives the value's; that of erf and erfc at
// once writes both into bytes that the host lends. Each batch entry does the whole batch on the buffers that it is given, and gives one of
// the four numbers that the batch reports. A feed is bytes that the host keeps. A distance takes the bits of two floats, and so does its
// code. The header is include/raveltrellis.h.
#![tactic(auto)]

pub mod apart;
pub mod feed_bytes;
pub mod pair;
pub mod report;

ghost use Rattle.std.specs.Prelude.{◌≡◌};
ghost use Rattle.std.specs.Float.{binary32, binary64};
ghost use Rattle.tgamma.specs.Tgamma.{tgamma_s};
ghost use Rattle.lgamma.specs.Lgamma64.{lgamma_s};
ghost use Rattle.erf.specs.Erf64.{erf_s, erfc_s};
ghost use Rattle.lgammaf.specs.Lgammaf.{lgammaf_s};
ghost use Rattle.tgammaf.specs.Tgammaf.{tgammaf_s};
ghost use Rattle.erff.specs.Erff.{erff_s, erfcf_s};
ghost use Rattle.by_bits.specs.ByBits.{on_bits, value_on_bits, sign_on_bits};
ghost use Rattle.records.specs.Codes.{number_s};
ghost use Rattle.stream.specs.Batch.{batch_s};
ghost use Rattle.entries.specs.Post.{Reported};

use stream::batch;

// The code of a report, a feed or a pair that has another length.
pub(crate) const REFUSED: u64 = 10;

pub fn rvt_tgamma(x: u64) -> u64
    ensures { result ≡ on_bits binary64 tgamma_s x }
{
    by_bits::tgamma_bits(x)
}

// Log-gamma's value, and below it its sign, 1 or -1.
pub fn rvt_lgamma_r_value(x: u64) -> u64
    ensures { result ≡ value_on_bits binary64 lgamma_s x }
{
    by_bits::lgamma_r_bits(x).value
}

pub fn rvt_lgamma_r_sign(x: u64) -> i32
    ensures { result ≡ sign_on_bits binary64 lgamma_s x }
{
    by_bits::lgamma_r_bits(x).sign
}

pub fn rvt_erf(x: u64) -> u64
    ensures { result ≡ on_bits binary64 erf_s x }
{
    by_bits::erf_bits(x)
}

pub fn rvt_erfc(x: u64) -> u64
    ensures { result ≡ on_bits binary64 erfc_s x }
{
    by_bits::erfc_bits(x)
}

// The f32 functions, on the 32 bits of an f32.
pub fn rvt_lgammaf_r_value(x: u32) -> u32
    ensures { result ≡ value_on_bits binary32 lgammaf_s x }
{
    by_bits::lgammaf_r_bits(x).value
}

pub fn rvt_lgammaf_r_sign(x: u32) -> i32
    ensures { result ≡ sign_on_bits binary32 lgammaf_s x }
{
    by_bits::lgammaf_r_bits(x).sign
}

pub fn rvt_tgammaf(x: u32) -> u32
    ensures { result ≡ on_bits binary32 tgammaf_s x }
{
    by_bits::tgammaf_bits(x)
}

pub fn rvt_erff(x: u32) -> u32
    ensures { result ≡ on_bits binary32 erff_s x }
{
    by_bits::erff_bits(x)
}

pub fn rvt_erfcf(x: u32) -> u32
    ensures { result ≡ on_bits binary32 erfcf_s x }
{
    by_bits::erfcf_bits(x)
}

// The stop code.
pub fn rvt_batch_code(requests: &[u8], answers: &mut [u8]) -> u64
    ensures { Reported (batch_s requests.now answers.old) (λ o. number_s o.code) result answers.old answers.new }
{
    let t = batch(requests, answers);
    u8::from(t.code) as u64
}

// How many records were answered.
pub fn rvt_batch_records(requests: &[u8], answers: &mut [u8]) -> u64
    ensures { Reported (batch_s requests.now answers.old) (λ o. o.tally.records) result answers.old answers.new }
{
    let t = batch(requests, answers).tally;
    t.records as u64
}

// How many bytes of the requests were read.
pub fn rvt_batch_read(requests: &[u8], answers: &mut [u8]) -> u64
    ensures { Reported (batch_s requests.now answers.old) (λ o. o.tally.read) result answers.old answers.new }
{
    let t = batch(requests, answers).tally;
    t.read as u64
}

// How many bytes of the answers were written.
pub fn rvt_batch_written(requests: &[u8], answers: &mut [u8]) -> u64
    ensures { Reported (batch_s requests.now answers.old) (λ o. o.tally.written) result answers.old answers.new }
{
    let t = batch(requests, answers).tally;
    t.written as u64
}
