// erf and erfc of one number in one call: the bits of both as bytes of a pair that the host lends.
ghost use Rattle.entries.specs.Pair.{pair_s, Given};

use crate::REFUSED;
use by_bits::erf_erfc_bits;
use digits::put;
use records::Code;

// The bytes of a pair.
const LENGTH: usize = 16;

// erf's bits, and then erfc's, eight bytes each. A pair of another length is refused, and then it is not touched.
pub fn rvt_erf_erfc(x: u64, pair: &mut [u8]) -> u64
    ensures { Given (pair_s x pair.old) result pair.new }
{
    if pair.len() != LENGTH {
        return REFUSED;
    }
    let t = erf_erfc_bits(x);
    put(pair, 0, 8, t.erf);
    put(pair, 8, 8, t.erfc);
    u8::from(Code::Done) as u64
}
