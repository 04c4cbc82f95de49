//! Samples for chronyd's reference clock driver SOCK.
ghost use Rattle.std.specs.Prelude.{◌≡◌, ◌≤◌, ◌<◌, ◌*◌, ◌^◌};
ghost use Rattle.std.specs.Duration.{as_nanos};
ghost use Rattle.arrayvec.specs.ArrayVec.{array_vec_len};
ghost use Rattle.base_specs.specs.Time.{second};
ghost use Rattle.edge_io.specs.Sample.{IsSeconds, IsSize, SpellsSample};
ghost use Rattle.edge_io.specs.Scaling.{IsRounded, IsScaled};

use arrayvec::ArrayVec;
use byte_codec::{add_u32_low_first, add_u64_low_first};
use std::time::Duration;

/// The bytes of a sample.
pub(crate) const SAMPLE_LEN: usize = 40;

/// The number at the end of a sample: `SOCK` in ASCII.
const MAGIC: u32 = 0x534f_434b;

/// Ticks of 100 ns in a second.
const SECOND: u128 = 10_000_000;

/// The sign of a double.
const SIGN: u64 = 1 << 63;

/// The sample of an offset in ticks of 100 ns, true time minus the machine's, that was measured so long after the start
/// of 1970.
pub(crate) fn sample_of(since_1970: Duration, offset: i64) -> ArrayVec<u8, SAMPLE_LEN>
    ensures sample { SpellsSample (as_nanos since_1970) offset result.items }
    ensures length { array_vec_len result ≡ 40 }
{
    let mut bytes = ArrayVec::new();
    add_u64_low_first(&mut bytes, since_1970.as_secs());
    add_u64_low_first(&mut bytes, u64::from(since_1970.subsec_micros()));
    add_u64_low_first(&mut bytes, seconds_bits(offset));
    add_u32_low_first(&mut bytes, 0);
    add_u32_low_first(&mut bytes, 0);
    add_u32_low_first(&mut bytes, 0);
    add_u32_low_first(&mut bytes, MAGIC);
    bytes
}

/// The bits of the double that is nearest to an amount of ticks in seconds.
fn seconds_bits(amount: i64) -> u64
    ensures { IsSeconds amount result }
{
    let size = size_bits(amount.unsigned_abs());
    if amount < 0 { SIGN + size } else { size }
}

/// The same of ticks that are not negative. No amount lies halfway between two doubles.
fn size_bits(ticks: u64) -> u64
    ensures double { IsSize ticks result }
    ensures within { result < 2 ^ 63 }
{
    if ticks == 0 {
        return 0;
    }
    let scaled = scale(ticks);
    let mantissa = round(scaled.ticks);
    // The first bit of the mantissa raises the exponent by one, and rounding up to 2^53 raises it by two.
    (u64::from(1_074 - scaled.places) << 52) + mantissa
}

/// Ticks times 2^places.
#[derive(Clone, Copy)]
struct Scaled {
    ticks: u128,
    places: u32,
}

/// Scales ticks so that they have seconds of 53 bits.
fn scale(ticks: u64) -> Scaled
    requires { 0 < ticks }
    ensures { IsScaled ticks result.ticks result.places }
{
    let places = 12 + ticks.leading_zeros();
    let scaled = u128::from(ticks) << places;
    if scaled < SECOND << 52 {
        Scaled {
            ticks: scaled * 2,
            places: places + 1,
        }
    } else {
        Scaled {
            ticks: scaled,
            places,
        }
    }
}

/// The seconds of scaled ticks, rounded.
fn round(scaled: u128) -> u64
    requires least { 2 ^ 52 * second ≤ scaled }
    requires most { scaled < 2 ^ 53 * second }
    ensures { IsRounded scaled result }
{
    ((scaled + SECOND / 2) / SECOND) as u64
}

#[cfg(test)]
mod tests {
    use super::*;

    // The doubles and samples are those of Python's struct.pack('<qqdiiii', ..).
    #[test]
    fn doubles_of_amounts(rt: HostRuntime) {
        let rows: [(i64, u64); 15] = [
            (0, 0),
            (1, 0x3e7a_d7f2_9abc_af48),
            (-1, 0xbe7a_d7f2_9abc_af48),
            (10_000_000, 0x3ff0_0000_0000_0000),
            (-2_990_000_000, 0xc072_b000_0000_0000),
            (100_000, 0x3f84_7ae1_47ae_147b),
            (3_333_333, 0x3fd5_5555_318a_bc87),
            (-620, 0xbf10_40bf_e3b0_3e21),
            (9_007_199_254_740_993, 0x41ca_d7f2_9abc_af49),
            (5_497_558_138_879_999_999, 0x4260_0000_0000_0000),
            (5_155_805_940_971_925_354, 0x425e_02bf_e1ec_4c52),
            (3_437_739_056_919_324_646, 0x4254_02a1_60c6_fbae),
            (-3_437_739_056_919_324_646, 0xc254_02a1_60c6_fbae),
            (i64::MAX, 0x426a_d7f2_9abc_af48),
            (i64::MIN, 0xc26a_d7f2_9abc_af48),
        ];
        for (amount, double) in rows {
            assert_eq!(rt; seconds_bits(amount), double, "{amount}");
        }
    }

    #[test]
    fn samples_of_offsets(rt: HostRuntime) {
        let late: [u8; SAMPLE_LEN] = [
            0, 0xF1, 0x53, 0x65, 0, 0, 0, 0, 0x3F, 0x42, 0x0F, 0, 0, 0, 0, 0, 0, 0, 0, 0, 0, 0,
            0xF0, 0xBF, 0, 0, 0, 0, 0, 0, 0, 0, 0, 0, 0, 0, 0x4B, 0x43, 0x4F, 0x53,
        ];
        let since_1970 = Duration::new(1_700_000_000, 999_999_999);
        assert_eq!(rt;
            sample_of(since_1970, -10_000_000).as_slice(),
            late.as_slice()
        );
        let early: [u8; SAMPLE_LEN] = [
            0, 0, 0, 0, 0, 0, 0, 0, 0, 0, 0, 0, 0, 0, 0, 0, 0x48, 0xAF, 0xBC, 0x9A, 0xF2, 0xD7,
            0x7A, 0x3E, 0, 0, 0, 0, 0, 0, 0, 0, 0, 0, 0, 0, 0x4B, 0x43, 0x4F, 0x53,
        ];
        assert_eq!(rt; sample_of(Duration::ZERO, 1).as_slice(), early.as_slice());
    }
}
