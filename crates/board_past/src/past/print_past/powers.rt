//! Powers of 31, each modulo 2^64.

ghost use Rattle.std.specs.Prelude.{◌≡◌, ◌<◌, ◌≤◌, ◌-◌, ◌*◌, ◌%◌, ◌^◌};
ghost use Rattle.board_points.specs.Point.{IsOn, index_of};

use board_points::{MAX_SIDE, Point};

/// The powers of a number modulo 2^64, from the exponent 0 on. Each step doubles how many there are: it multiplies them by the power that
/// comes next.
macro_rules! powers {
    ([$($power:expr),*]) => { [$($power),*] };
    ([$($power:expr),*] $next:literal $($later:literal)*) => {
        powers!([$($power,)* $(u64::wrapping_mul($power, $next)),*] $($later)*)
    };
}

/// For each exponent below 64 the power of 31.
const LOW: [u64; 64] = powers!([1]
    0x0000_0000_0000_001f 0x0000_0000_0000_03c1 0x0000_0000_000e_1781
    0x0000_00c6_9444_6f01 0xafba_e830_50a9_de01 0x32f3_abd7_7dd7_bc01);

/// For each number below 64 the power of 31 whose exponent is 64 times that number.
const HIGH: [u64; 64] = powers!([1]
    0x2149_8314_4dbf_7801 0xe4ea_838c_e3be_f001 0xd6e7_b322_e87d_e001
    0x89a3_4a2a_54fb_c001 0x1d17_c1e6_b9f7_8001 0x1901_2a15_b3ef_0001);

/// The power that the digit of a point counts in a print: its exponent is how many points come after that one, row by row from the top,
/// from left to right.
pub(crate) fn power_of(side: u8, point: Point) -> u64
    requires on_board { IsOn side point }
    requires side { side ≤ MAX_SIDE }
    ensures { result ≡ 31 ^ (side * side - 1 - index_of side point) % 2 ^ 64 }
{
    // in 32 bits: then the compiled masks are short
    let side = u32::from(side);
    let rows = side - u32::from(point.row);
    let exponent = (rows * side - 1 - u32::from(point.col)) as usize;
    LOW[exponent % 64].wrapping_mul(HIGH[exponent / 64])
}

/// The power with this small exponent.
pub(crate) fn small_power(exponent: usize) -> u64
    requires { exponent < 64 }
    ensures { result ≡ 31 ^ exponent % 2 ^ 64 }
{
    LOW[exponent]
}
