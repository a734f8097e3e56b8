// The static library of the C entries: each export calls the function of its name in `entries`, and promises what that promises. The header is
// include/raveltrellis.h.
#![tactic(auto)]

ghost use Rattle.std.specs.Prelude.{◌≡◌};
ghost use Rattle.std.specs.Float.{binary32, binary64};
ghost use Rattle.tgamma.specs.Tgamma.{tgamma_s};
ghost use Rattle.lgamma.specs.Lgamma64.{lgamma_s};
ghost use Rattle.erf.specs.Erf64.{erf_s, erfc_s};
ghost use Rattle.lgammaf.specs.Lgammaf.{lgammaf_s};
ghost use Rattle.tgammaf.specs.Tgammaf.{tgammaf_s};
ghost use Rattle.erff.specs.Erff.{erff_s, erfcf_s};
ghost use Rattle.by_bits.specs.ByBits.{on_bits, value_on_bits, sign_on_bits};
ghost use Rattle.records.specs.Codes.{number_s};
ghost use Rattle.stream.specs.Batch.{batch_s};
ghost use Rattle.distance.specs.Distance.{distance_s, code_of, steps_of};
ghost use Rattle.entries.specs.Post.{Reported};
ghost use Rattle.entries.specs.Pair.{pair_s, Given};
ghost use Rattle.entries.specs.Batch.{call_s, Made};
ghost use Rattle.entries.specs.Feed.{push_bytes_s, close_bytes_s, Kept, Told};

#[unsafe(no_mangle)]
pub extern "C" fn rvt_tgamma(x: u64) -> u64
    ensures { result ≡ on_bits binary64 tgamma_s x }
{
    entries::rvt_tgamma(x)
}

// Log-gamma's value, and below it its sign, 1 or -1.
#[unsafe(no_mangle)]
pub extern "C" fn rvt_lgamma_r_value(x: u64) -> u64
    ensures { result ≡ value_on_bits binary64 lgamma_s x }
{
    entries::rvt_lgamma_r_value(x)
}

#[unsafe(no_mangle)]
pub extern "C" fn rvt_lgamma_r_sign(x: u64) -> i32
    ensures { result ≡ sign_on_bits binary64 lgamma_s x }
{
    entries::rvt_lgamma_r_sign(x)
}

#[unsafe(no_mangle)]
pub extern "C" fn rvt_erf(x: u64) -> u64
    ensures { result ≡ on_bits binary64 erf_s x }
{
    entries::rvt_erf(x)
}

#[unsafe(no_mangle)]
pub extern "C" fn rvt_erfc(x: u64) -> u64
    ensures { result ≡ on_bits binary64 erfc_s x }
{
    entries::rvt_erfc(x)
}

// The f32 functions, on the 32 bits of an f32.
#[unsafe(no_mangle)]
pub extern "C" fn rvt_lgammaf_r_value(x: u32) -> u32
    ensures { result ≡ value_on_bits binary32 lgammaf_s x }
{
    entries::rvt_lgammaf_r_value(x)
}

#[unsafe(no_mangle)]
pub extern "C" fn rvt_lgammaf_r_sign(x: u32) -> i32
    ensures { result ≡ sign_on_bits binary32 lgammaf_s x }
{
    entries::rvt_lgammaf_r_sign(x)
}

#[unsafe(no_mangle)]
pub extern "C" fn rvt_tgammaf(x: u32) -> u32
    ensures { result ≡ on_bits binary32 tgammaf_s x }
{
    entries::rvt_tgammaf(x)
}

#[unsafe(no_mangle)]
pub extern "C" fn rvt_erff(x: u32) -> u32
    ensures { result ≡ on_bits binary32 erff_s x }
{
    entries::rvt_erff(x)
}

#[unsafe(no_mangle)]
pub extern "C" fn rvt_erfcf(x: u32) -> u32
    ensures { result ≡ on_bits binary32 erfcf_s x }
{
    entries::rvt_erfcf(x)
}

// The stop code.
#[unsafe(no_mangle)]
pub extern "C" fn rvt_batch_code(requests: &[u8], answers: &mut [u8]) -> u64
    ensures { Reported (batch_s requests.now answers.old) (λ o. number_s o.code) result answers.old answers.new }
{
    entries::rvt_batch_code(requests, answers)
}

// How many records were answered.
#[unsafe(no_mangle)]
pub extern "C" fn rvt_batch_records(requests: &[u8], answers: &mut [u8]) -> u64
    ensures { Reported (batch_s requests.now answers.old) (λ o. o.tally.records) result answers.old answers.new }
{
    entries::rvt_batch_records(requests, answers)
}

// How many bytes of the requests were read.
#[unsafe(no_mangle)]
pub extern "C" fn rvt_batch_read(requests: &[u8], answers: &mut [u8]) -> u64
    ensures { Reported (batch_s requests.now answers.old) (λ o. o.tally.read) result answers.old answers.new }
{
    entries::rvt_batch_read(requests, answers)
}

// How many bytes of the answers were written.
#[unsafe(no_mangle)]
pub extern "C" fn rvt_batch_written(requests: &[u8], answers: &mut [u8]) -> u64
    ensures { Reported (batch_s requests.now answers.old) (λ o. o.tally.written) result answers.old answers.new }
{
    entries::rvt_batch_written(requests, answers)
}

#[unsafe(no_mangle)]
pub extern "C" fn rvt_distance(a: u64, b: u64) -> u64
    ensures { result ≡ steps_of (distance_s binary64 a b) }
{
    entries::apart::rvt_distance(a, b)
}

#[unsafe(no_mangle)]
pub extern "C" fn rvt_distance_code(a: u64, b: u64) -> u64
    ensures { result ≡ code_of (distance_s binary64 a b) }
{
    entries::apart::rvt_distance_code(a, b)
}

#[unsafe(no_mangle)]
pub extern "C" fn rvt_distancef(a: u32, b: u32) -> u64
    ensures { result ≡ steps_of (distance_s binary32 a b) }
{
    entries::apart::rvt_distancef(a, b)
}

#[unsafe(no_mangle)]
pub extern "C" fn rvt_distancef_code(a: u32, b: u32) -> u64
    ensures { result ≡ code_of (distance_s binary32 a b) }
{
    entries::apart::rvt_distancef_code(a, b)
}

// erf's bits, and then erfc's, eight bytes each. A pair of another length is refused, and then it is not touched.
#[unsafe(no_mangle)]
pub extern "C" fn rvt_erf_erfc(x: u64, pair: &mut [u8]) -> u64
    ensures { Given (pair_s x pair.old) result pair.new }
{
    entries::pair::rvt_erf_erfc(x, pair)
}

// The whole batch. The report has the records answered, the bytes read and the bytes written, eight bytes each. One of another length is
// refused, and then nothing is touched.
#[unsafe(no_mangle)]
pub extern "C" fn rvt_batch(requests: &[u8], answers: &mut [u8], report: &mut [u8]) -> u64
    ensures { Made (call_s requests.now answers.old report.old) result answers.new report.new }
{
    entries::report::rvt_batch(requests, answers, report)
}

// Takes what it can of the piece. A feed of another length is refused, and then nothing is touched.
#[unsafe(no_mangle)]
pub extern "C" fn rvt_feed_push(feed: &mut [u8], piece: &[u8], answers: &mut [u8]) -> u64
    ensures { Kept (push_bytes_s feed.old piece.now answers.old) result feed.new answers.new }
{
    entries::feed_bytes::rvt_feed_push(feed, piece, answers)
}

// Closes the feed. One of another length is refused, and then nothing is touched.
#[unsafe(no_mangle)]
pub extern "C" fn rvt_feed_close(feed: &mut [u8]) -> u64
    ensures { Told (close_bytes_s feed.old) result feed.new }
{
    entries::feed_bytes::rvt_feed_close(feed)
}
