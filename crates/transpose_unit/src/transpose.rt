//! The transpose of 64 words of 64 bits, in six steps of masked exchanges.

ghost use Rattle.std.specs.Prelude.{◌≡◌, ℕ, ◌<◌, ◌+◌, ◌-◌, ◌/◌, ◌%◌, ◌==◌, slice_index_or, true};
ghost use Rattle.std.specs.Prelude.{if◌then◌else◌};
ghost use Rattle.bit_rows.specs.Bits.{bit_at};
ghost use Rattle.transpose_unit.specs.Exchange.{is_weight, IsMask, IsExchanged};
ghost use Rattle.transpose_unit.specs.Stage.{IsTransposed};

/// The lower word of a pair, whose upper bits the upper word's lower bits replace.
fn lower_of(lower: u64, upper: u64, weight: u8, mask: u64) -> u64
    requires weight { is_weight weight ≡ true }
    requires mask { IsMask weight mask }
    ensures { (c : ℕ) → c < 64 → bit_at result c
        ≡ (if c / weight % 2 == 0 then bit_at lower c else bit_at upper (c - weight)) }
{
    (lower & mask) | ((upper & mask) << weight)
}

/// The upper word of a pair, whose lower bits the lower word's upper bits replace.
fn upper_of(lower: u64, upper: u64, weight: u8, mask: u64) -> u64
    requires weight { is_weight weight ≡ true }
    requires mask { IsMask weight mask }
    ensures { (c : ℕ) → c < 64 → bit_at result c
        ≡ (if c / weight % 2 == 0 then bit_at lower (c + weight) else bit_at upper c) }
{
    ((lower >> weight) & mask) | (upper & !mask)
}

/// Exchanges, in each pair of words whose numbers differ by the weight alone, the bits of the first
/// whose numbers have the weight and those of the second whose numbers lack it.
fn exchange(m: &mut [u64; 64], weight: u8, mask: u64)
    requires weight { is_weight weight ≡ true }
    requires mask { IsMask weight mask }
    ensures { IsExchanged weight m.old m.new }
{
    let step = weight as usize;
    for k in 0..32 {
        let lower = k / step * step + k;
        let upper = lower + step;
        let (a, b) = (m[lower], m[upper]);
        m[lower] = lower_of(a, b, weight, mask);
        m[upper] = upper_of(a, b, weight, mask);
    }
}

/// Makes bit j of word i what bit i of word j was.
pub fn transpose64(m: &mut [u64; 64])
    ensures { IsTransposed m.old m.new }
{
    exchange(m, 32, 0x0000_0000_ffff_ffff);
    exchange(m, 16, 0x0000_ffff_0000_ffff);
    exchange(m, 8, 0x00ff_00ff_00ff_00ff);
    exchange(m, 4, 0x0f0f_0f0f_0f0f_0f0f);
    exchange(m, 2, 0x3333_3333_3333_3333);
    exchange(m, 1, 0x5555_5555_5555_5555);
}
